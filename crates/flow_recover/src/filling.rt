//! The positions that a keeper begins with.
ghost use Rattle.std.specs.Prelude.{◌≡◌, ◌≤◌, [], List, IfOk, IfErr, length, take};
ghost use Rattle.flow_cache.specs.Laws.{AllHave};
ghost use Rattle.flow_check.specs.Language.{meaning_of};
ghost use Rattle.flow_machine.specs.Seated.{ReachedIn};
ghost use Rattle.flow_model.specs.Book.{Book};
ghost use Rattle.flow_recover.specs.Filling.{IsLedTo};
ghost use Rattle.flow_recover.specs.Positions.{ArePositions};
ghost use Rattle.flow_recover.specs.declared.positions.Position.{Position as APosition};
ghost use Rattle.flow_base.specs.declared.fault.Fault.TheVariants.{NoMemory};

use crate::positions::Position;
use flow_base::fault::Fault;
use flow_machine::seats::{Led, Seats};
use std::alloc::Global;

fn count_of(positions: &[Position], capacity: usize) -> usize
    ensures { result ≤ length positions.now }
{
    if positions.len() < capacity {
        positions.len()
    } else {
        capacity
    }
}

fn led_to(alloc: Global, position: &Position) -> Result<Led, Fault>
    ensures led { IfOk result (λ l. IsLedTo position.now l) }
    ensures memory { IfErr result (λ f. f ≡ NoMemory _) }
{
    match position.stance.copy(alloc) {
        Ok(stance) => Ok(Led {
            run: position.run,
            text: position.text,
            stance,
        }),
        Err(refused) => Err(Fault::from(refused)),
    }
}

/// Where the first of these runs stand, as many as are kept.
///
/// # Failure
/// E01.
pub(crate) fn seats_of(
    alloc: Global,
    capacity: usize,
    positions: &[Position],
) -> Result<Seats, Fault>
    requires first { 1 ≤ capacity }
    requires last { capacity ≤ 4096 }
    ensures none { IfOk result (λ s. s.ahead.items ≡ []) }
    // They are the first of all positions.
    ensures reached { IfOk result (λ s. (b : Book) (all : List APosition) → positions.now ≡ take (length positions.now) all
        → ArePositions meaning_of b all → AllHave (ReachedIn meaning_of b) s.kept.entries) }
    ensures memory { IfErr result (λ f. f ≡ NoMemory _) }
{
    let mut seats = Seats::new(alloc, capacity)?;
    for i in 0..count_of(positions, capacity) {
        let led = led_to(alloc, &positions[i])?;
        seats.lead(led);
    }
    seats.settle();
    Ok(seats)
}
