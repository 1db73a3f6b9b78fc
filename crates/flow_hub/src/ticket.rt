//! Tickets, and what a ticket has instead of a receipt.
ghost use Rattle.std.specs.Prelude.{◌≡◌, ◌^◌};
ghost use Rattle.flow_hub.specs.Refusals.{is_spent, why_number};

use crate::seats::Room;
use flow_base::code::Code;
use flow_base::command::Command;
use std::marker::{Model, PhantomData};

/// What a ticket says. No value of it is made.
pub struct TicketFacts {
    /// How many submissions of its hub came before.
    pub number: u64,
    /// The submitter that it was given to.
    pub owner: u64,
}

/// What a submitter gets for its command, and waits with. Its type has the name of its hub, so no submitter of another hub takes it. To
/// a contract it is what it says.
#[derive(Drop)]
pub struct Ticket<B: Room> {
    pub(crate) number: u64,
    pub(crate) owner: u64,
    of: PhantomData<B>,
}

impl<B: Room> Model for Ticket<B> {
    ghost use Rattle.std.specs.Prelude.{◌≡◌, ◌^◌};
    ghost use Rattle.flow_hub.specs.declared.ticket.TicketFacts.{TicketFacts};
    ghost use Rattle.flow_hub.specs.Ticketing.{ticket_code};

    ghost Value = { TicketFacts };

    ghost coded = { ticket_code };

    ghost view = { λ t. record { number = t.number; owner = t.owner } };

    // It speaks of the hub's name, so no function that is called under a name that its caller has picked hands a ticket out.
    ghost invariant = { λ _. B.parts ≡ 2 ^ 62 };
}

impl<B: Room> Ticket<B> {
    pub(crate) fn given(number: u64, owner: u64) -> Ticket<B>
        requires { B.parts ≡ 2 ^ 62 }
        ensures { result ≡ record { number = number; owner = owner } }
    {
        Ticket {
            number,
            owner,
            of: PhantomData,
        }
    }
}

/// Why a ticket has no receipt.
#[derive(Clone, Copy, Debug, PartialEq, Eq)]
pub enum Why {
    /// E92: it is another submitter's, which may still wait with it.
    NotMine,
    /// Its command was answered by this code.
    Refused(Code),
}

impl Why {
    /// The number of the refusal.
    pub fn number(self) -> u8
        ensures { result ≡ why_number self }
    {
        match self {
            Why::NotMine => 92,
            Why::Refused(code) => code.number(),
        }
    }
}

/// What a ticket without a receipt says. No value of it is made.
pub struct NotDoneFacts {
    pub ticket: TicketFacts,
    pub code: Why,
    pub command: Option<Command>,
}

/// A ticket without a receipt. Where it is the submitter's own it has had its answer, and its command comes back.
#[derive(Drop)]
pub struct NotDone<B: Room> {
    pub ticket: Ticket<B>,
    pub code: Why,
    pub command: Option<Command>,
}

impl<B: Room> Model for NotDone<B> {
    ghost use Rattle.flow_hub.specs.declared.ticket.NotDoneFacts.{NotDoneFacts};
    ghost use Rattle.flow_hub.specs.Ticketing.{not_done_code};

    ghost Value = { NotDoneFacts };

    ghost coded = { not_done_code };

    ghost view = { λ n. record { ticket = n.ticket; code = n.code; command = n.command } };
}

impl<B: Room> NotDone<B> {
    /// Whether the ticket is spent. If not, it is another submitter's, which may still wait with it; for one that is spent no answer
    /// comes any more.
    pub fn is_spent(&self) -> bool
        ensures { result ≡ is_spent self.now }
    {
        match self.code {
            Why::NotMine => false,
            Why::Refused(_code) => true,
        }
    }
}
