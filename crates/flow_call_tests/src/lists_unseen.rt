//! A count whose list is for contracts alone.
ghost use Rattle.std.specs.Prelude.{◌≡◌, ◌+◌, ◌<◌, ◌^◌, [], ◌∷◌, ◌++◌, length};

use unseen::{Listed, Makes};

struct Empty;

impl Makes<(), u64> for Empty {
    ghost list = { λ x. [] };
}

struct OneMore;

impl Makes<(Listed<u64>, u64), u64> for OneMore {
    ghost list = { λ p. p.0 ++ p.1 ∷ [] };
}

// A number that runs, tied to a list that does not.
#[derive(Drop)]
struct Tally {
    seen: Listed<u64>,
    count: u64,
    ghost counts: { count ≡ length seen },
}

fn none_yet() -> Tally
    ensures { result.seen ≡ [] }
{
    Tally {
        seen: Listed::of::<(), Empty>(&()),
        count: 0,
    }
}

fn one_more(tally: &Tally, number: u64) -> Tally
    requires { length tally.now.seen < 2 ^ 63 }
    ensures { result.seen ≡ tally.now.seen ++ number ∷ [] }
{
    Tally {
        seen: Listed::of::<(Listed<u64>, u64), OneMore>(&(tally.seen.again(), number)),
        count: tally.count + 1,
    }
}

// What the contracts say of the list is the number that runs.
fn count_of_two(first: u64, second: u64) -> u64
    ensures { result ≡ 2 }
{
    let none = none_yet();
    let one = one_more(&none, first);
    let two = one_more(&one, second);
    two.count
}

#[test]
fn a_list_is_made_and_made_longer(rt: HostRuntime) {
    assert_eq!(rt; count_of_two(7, 7), 2);
    let one = one_more(&none_yet(), 5);
    assert_eq!(rt; one.count, 1);
    assert_eq!(rt; size_of::<Listed<u64>>(), 0);
}
