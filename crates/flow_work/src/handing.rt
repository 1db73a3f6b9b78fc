//! The ends of the channel by which lines go to who answers them.
ghost use Rattle.std.specs.Prelude.{◌≡◌, [], ◌∷◌, ◌++◌};

use crate::input::{InputMessage, Taking};
use crossbeam_channel::Sender;
use flow_hub::hub::Hub;
use flow_hub::seats::Room;
use std::alloc::Global;
use std::snapshot::Snapshot;
use std::sync::{Arc, Wait};
use unseen::{Listed, Makes};

struct Nothing;

impl Makes<(), InputMessage> for Nothing {
    ghost use Rattle.std.specs.Prelude.{[]};

    ghost list = { λ _. [] };
}

struct OneMore;

impl Makes<(Listed<InputMessage>, Snapshot<InputMessage>), InputMessage> for OneMore {
    ghost use Rattle.std.specs.Prelude.{[], ◌∷◌, ◌++◌};

    ghost list = { λ p. p.0 ++ p.1.value ∷ [] };
}

/// Nothing yet.
pub(crate) fn no_inputs() -> Listed<InputMessage>
    ensures { result ≡ [] }
{
    Listed::of::<(), Nothing>(&())
}

/// What was taken, and one more.
pub(crate) fn with_input(
    taken: &Listed<InputMessage>,
    input: Snapshot<InputMessage>,
) -> Listed<InputMessage>
    ensures { result ≡ taken.now ++ input.value ∷ [] }
{
    let more = (taken.again(), input);
    Listed::of::<(Listed<InputMessage>, Snapshot<InputMessage>), OneMore>(&more)
}

/// Hands on what is read.
#[derive(Drop)]
pub(crate) struct Handing {
    sender: Sender<InputMessage>,
    /// All that was taken, for contracts alone.
    taken: Listed<InputMessage>,
}

impl Handing {
    pub(crate) fn new(sender: Sender<InputMessage>) -> Handing
        ensures { result.taken ≡ [] }
    {
        Handing {
            sender,
            taken: no_inputs(),
        }
    }
}

impl Taking for Handing {
    ghost taken = { λ h. h.taken };

    // Of a refused send no clause says why.
    ghost gone = { λ _. Unit {0} };

    fn take<R: Wait>(&mut self, rt: &R, input: InputMessage) -> bool {
        let read = Snapshot::of(&input);
        match self.sender.send(rt, input) {
            Ok(()) => {
                self.taken = with_input(&self.taken, read);
                true
            }
            Err(_back) => false,
        }
    }
}

/// Hands on what is read, and rings at a hub behind it, so that one who sleeps there looks.
#[derive(Drop)]
pub(crate) struct Ringing<B: Room> {
    handing: Handing,
    hub: Arc<Hub<B>, Global>,
}

impl<B: Room> Ringing<B> {
    pub(crate) fn new(sender: Sender<InputMessage>, hub: Arc<Hub<B>, Global>) -> Ringing<B>
        ensures { result.handing.taken ≡ [] }
    {
        Ringing {
            handing: Handing::new(sender),
            hub,
        }
    }
}

impl<B: Room> Taking for Ringing<B> {
    ghost taken = { λ r. r.handing.taken };

    ghost gone = { λ _. Unit {0} };

    fn take<R: Wait>(&mut self, rt: &R, input: InputMessage) -> bool {
        let takes = self.handing.take(rt, input);
        if takes {
            self.hub.ring(rt);
        }
        takes
    }
}
