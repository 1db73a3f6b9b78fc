//! What a keeper's board names, over a store in memory.
use crate::acts::{Act, are_so};
use crate::calls::{Call, Calls};
use crate::keepers::{Keeping, Shown};
use flow_base::task::Posted;
use std::alloc::Global;
use std::test::Fail;

/// Two runs that wait for their activities.
const TWO: Calls = &[
    (1, Call::Register),
    (1, Call::Start("f")),
    (1, Call::Start("g")),
];

/// The same, and the first one's activity has completed.
const ONE: Calls = &[
    (1, Call::Register),
    (1, Call::Start("f")),
    (1, Call::Start("g")),
    (1, Call::Complete(1)),
];

/// What is done, what was posted before, the moment, and what is on the board then.
type Row = (Calls, &'static [Posted], u64, Shown);

const ROWS: [Row; 4] = [
    (TWO, &[], 1000, (2, (1, 2, 1), 0, 2)),
    // Nothing is ready yet, and the board says when more is.
    (TWO, &[], 999, (0, (0, 0, 0), 1000, 2)),
    (TWO, &[(1, 2, 1)], 1000, (1, (2, 2, 1), 0, 2)),
    (ONE, &[], 2000, (1, (2, 2, 1), 0, 1)),
];

/// The number of the first row that isn't so.
fn first_other(alloc: Global, rows: &[Row]) -> usize {
    for i in 0..rows.len() {
        let (calls, posted, at, shown) = rows[i];
        if !are_so(
            alloc,
            &[Act::Keeps(Keeping::Boards(calls, posted, at, shown))],
        ) {
            return i;
        }
    }
    rows.len()
}

// What is ready and wasn't posted, and of runs that are open.
#[test]
fn a_board_has_what_is_to_be_done(rt: HostRuntime) -> Result<(), Fail> {
    assert!(rt; first_other(rt.alloc(), &ROWS) == ROWS.len());
    Ok(())
}
