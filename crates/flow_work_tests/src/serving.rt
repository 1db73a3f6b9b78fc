//! An engine over memory that serves a hub, and what is told of a receipt.
ghost use Rattle.std.specs.Prelude.{◌≡◌, []};

use crate::clock::Still;
use flow_base::command::{Command, Reply};
use flow_base::submission::Receipt;
use flow_engine::engine::Engine;
use flow_hub::publisher::Publisher;
use flow_hub::seats::Room;
use flow_hub::submitter::Submitter;
use flow_hub::ticket::Ticket;
use flow_serve::serve;
use flow_settings::settings::Settings;
use sqlite::Connection;
use std::alloc::Global;
use std::sync::Wait;
use std::time;

/// What is told of a command: the place of its receipt, and the number that its reply names; or zeros.
#[derive(Clone, Copy, PartialEq, Eq)]
pub struct Told {
    pub place: u64,
    pub named: u64,
}

fn named(reply: &Reply) -> u64 {
    match reply {
        Reply::Registered(text) => text.get(),
        Reply::Started(run) => run.get(),
        Reply::Fired(timers, _) => *timers,
        _ => 0,
    }
}

fn told_of(receipt: &Receipt) -> Told {
    Told {
        place: receipt.place,
        named: named(&receipt.reply),
    }
}

pub fn submitted<B: Room, R: Wait>(
    rt: &R,
    submitter: &mut Submitter<B>,
    command: Command,
) -> Option<Ticket<B>> {
    submitter.submit(rt, command).ok()
}

pub fn fetched<B: Room, R: Wait>(rt: &R, submitter: &mut Submitter<B>, ticket: Ticket<B>) -> Told {
    match submitter.wait(rt, ticket) {
        Ok(receipt) => told_of(&receipt),
        Err(_instead) => Told { place: 0, named: 0 },
    }
}

/// Opens an engine over memory, and serves what was submitted. Whether it ended with all answered.
pub fn serve_over_memory<B: Room, R: Wait + time::Clock>(
    rt: &R,
    alloc: Global,
    publisher: &mut Publisher<B>,
    clock: Still,
) -> Option<bool>
    requires { (publisher.old.history ≡ []) × (publisher.old.last ≡ []) × (publisher.old.held ≡ []) }
{
    let conn = Connection::open_in_memory(alloc).ok()?;
    match Engine::open(alloc, conn, Settings::usual()) {
        Ok(engine) => {
            let mut engine = engine;
            let ended = serve(&mut engine, rt, publisher, &clock, 16);
            Some(ended.is_ok())
        }
        Err((_fault, _conn)) => None,
    }
}
