//! What a hub doesn't take in.
ghost use Rattle.std.specs.Prelude.{◌≡◌};
ghost use Rattle.flow_hub.specs.Refusals.{denied_number, unseated_number};

use crate::state::AllGiven;
use flow_base::memory::NoMemory;

/// Why a command isn't taken in. It comes back.
#[derive(Clone, Copy, Debug, PartialEq, Eq, thiserror::Error)]
pub enum Denied {
    #[error("E{:02} inbox full", self.number())]
    InboxFull,
    #[error("E{:02} hub closed", self.number())]
    HubClosed,
}

impl Denied {
    /// The number of the refusal.
    pub fn number(self) -> u8
        ensures { result ≡ denied_number self }
    {
        match self {
            Denied::InboxFull => 90,
            Denied::HubClosed => 91,
        }
    }
}

/// Why a hub gives no further submitter.
#[derive(Clone, Copy, Debug, PartialEq, Eq, thiserror::Error)]
pub enum Unseated {
    #[error("E{:02} out of memory", self.number())]
    NoMemory(NoMemory),
    /// It has given as many as it has numbers for. No other module makes one, so a call that answers it has looked.
    #[error("E{:02} inbox full", self.number())]
    InboxFull(AllGiven),
}

impl Unseated {
    /// The number of the refusal.
    pub fn number(self) -> u8
        ensures { result ≡ unseated_number self }
    {
        match self {
            Unseated::NoMemory(_) => 1,
            Unseated::InboxFull(_) => 90,
        }
    }
}
