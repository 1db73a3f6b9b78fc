//! What a turn leaves of its run: how many events, and whether it is open.
ghost use Rattle.std.specs.Prelude.{◌≡◌, ◌+◌, IfSome};
ghost use Rattle.flow_maps.specs.Turned as words;

use flow_base::book::Turn;
use flow_base::effect::{Effect, effect_of_command, effect_of_input};
use flow_base::event::State;
use flow_base::number::LAST_NUMBER;

fn is_open_by(was: bool, effect: Effect) -> bool
    ensures { result ≡ words.is_open_by was effect }
{
    match effect {
        Effect::Begins => true,
        Effect::Closes(state) => matches!(state, State::Open),
        _ => was,
    }
}

/// How many events a run of so many has behind a turn of so many commands. None where the last one would have no number.
pub(crate) fn count_behind(count: u64, commands: usize) -> Option<u64>
    ensures { IfSome result (λ n. n ≡ count + 1 + commands) }
{
    let more = commands as u64;
    if count >= LAST_NUMBER || more >= LAST_NUMBER {
        return None;
    }
    Some(count + 1 + more)
}

/// One less, if there is one.
pub(crate) fn count_before(count: u64) -> Option<u64>
    ensures { IfSome result (λ n. n + 1 ≡ count) }
{
    if count == 0 {
        return None;
    }
    Some(count - 1)
}

/// Whether a run that was open or not is so behind a turn.
pub fn is_open_behind(was: bool, turn: &Turn) -> bool
    ensures { result ≡ words.is_open_behind was turn.now }
{
    let mut is_open = is_open_by(was, effect_of_input(&turn.input));
    for command in turn.commands.as_slice() {
        is_open = is_open_by(is_open, effect_of_command(command));
    }
    is_open
}
