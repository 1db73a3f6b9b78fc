//! What comes of the input, as who answers lines takes it.
ghost use Rattle.std.specs.Prelude.{◌≡◌, [], ◌∷◌, ◌++◌, MatchOption};

use crate::handing::{no_inputs, with_input};
use crate::input::InputMessage;
use crossbeam_channel::Receiver;
use std::snapshot::Snapshot;
use std::sync::Wait;
use unseen::Listed;

/// Gives what comes of the input, one after the other.
pub trait Giving {
    ghost use Rattle.std.specs.Prelude.{◌≡◌, [], ◌∷◌, ◌++◌, IfNone, List, MatchOption};
    ghost use Rattle.flow_work.specs.declared.input.InputMessage.{InputMessage};

    /// All that it gave, for contracts alone.
    ghost given: { Self → List InputMessage };

    /// It was asked for what is there, and nothing was, for contracts alone.
    ghost lacks: { Self → Type 0 };

    /// Waits for what comes next.
    fn next<R: Wait>(&mut self, rt: &R) -> InputMessage
        ensures { given self.new ≡ given self.old ++ result ∷ [] };

    /// What comes next, if it is there.
    fn ready<R: Wait>(&mut self, rt: &R) -> Option<InputMessage>
        ensures given { MatchOption result (given self.new ≡ given self.old) (λ i. given self.new ≡ given self.old ++ i ∷ []) }
        ensures lacks { IfNone result (lacks self.new) };
}

/// The end of the channel of what is read, and what it gave.
#[derive(Drop)]
pub(crate) struct Incoming {
    receiver: Receiver<InputMessage>,
    given: Listed<InputMessage>,
}

impl Incoming {
    pub(crate) fn new(receiver: Receiver<InputMessage>) -> Incoming
        ensures { result.given ≡ [] }
    {
        Incoming {
            receiver,
            given: no_inputs(),
        }
    }
}

impl Giving for Incoming {
    ghost given = { λ g. g.given };

    // Of a channel that gives nothing no clause says why.
    ghost lacks = { λ _. Unit {0} };

    fn next<R: Wait>(&mut self, rt: &R) -> InputMessage {
        let input = self.receiver.recv(rt).unwrap_or(InputMessage::Stopped);
        self.given = with_input(&self.given, Snapshot::of(&input));
        input
    }

    fn ready<R: Wait>(&mut self, rt: &R) -> Option<InputMessage> {
        match self.receiver.try_recv(rt) {
            Ok(input) => {
                self.given = with_input(&self.given, Snapshot::of(&input));
                Some(input)
            }
            Err(_none) => None,
        }
    }
}
