//! Batches of the rule's commands, asked of an engine one after the other, and what became of them, in plain numbers.
ghost use Rattle.std.specs.Prelude.{◌≤◌, IfSome, length};

use crate::calls::numbered;
use crate::rule::command_at;
use flow_base::code::Code;
use flow_base::command::{Command, Reply};
use flow_engine::engine::Engine;
use flow_model::answer::{Stop, Together};
use flow_settings::settings::Settings;
use sqlite::{Alter, Connection};
use sqlite_disk::digest_of;
use std::alloc::Global;

/// Which commands are asked, and how they are cut.
#[derive(Clone, Copy)]
pub struct Plan {
    /// How many commands a batch has.
    pub size: u64,
    /// The first batch, and the one behind the last.
    pub from: u64,
    pub to: u64,
    /// The batch that is left out.
    pub without: Option<u64>,
}

impl Plan {
    /// The first batches.
    pub fn first(size: u64, batches: u64) -> Plan {
        Plan {
            size,
            from: 0,
            to: batches,
            without: None,
        }
    }

    /// One of them alone.
    pub fn only(self, batch: u64) -> Plan {
        Plan {
            size: self.size,
            from: batch,
            to: batch.saturating_add(1),
            without: None,
        }
    }

    /// All but one of them.
    pub fn all_but(self, batch: u64) -> Plan {
        Plan {
            size: self.size,
            from: self.from,
            to: self.to,
            without: Some(batch),
        }
    }
}

/// Nothing is asked.
pub const NOTHING: Plan = Plan {
    size: 1,
    from: 0,
    to: 0,
    without: None,
};

/// What fills a store: it has three open runs, of which two wait for a timer, and the last for an activity.
pub const FILLING: Plan = Plan {
    size: 11,
    from: 0,
    to: 3,
    without: None,
};

/// What became of a batch.
#[derive(Clone, Copy, PartialEq, Eq)]
pub enum Ended {
    Kept,
    /// It isn't applied, with E80.
    GivenUp,
    /// E84.
    Unknown,
    /// E85.
    Halted,
    /// What no disk leads to.
    Other,
}

/// What became of all batches.
#[derive(Clone, Copy)]
pub struct Course {
    pub is_open: bool,
    /// How many were kept before the first that wasn't.
    pub kept: u64,
    /// What became of that one. Kept: there is none.
    pub broken: Ended,
    /// How many after it were kept, not applied with E80, unknown, halted, and anything else.
    pub kept_later: u64,
    pub given_up: u64,
    pub unknown: u64,
    pub halted: u64,
    pub other: u64,
    /// What the replies of all kept batches name: the sum of a digest of each.
    pub told: u64,
}

impl Course {
    /// Before the first batch.
    pub fn new(is_open: bool) -> Course {
        Course {
            is_open,
            kept: 0,
            broken: Ended::Kept,
            kept_later: 0,
            given_up: 0,
            unknown: 0,
            halted: 0,
            other: 0,
            told: 0,
        }
    }

    /// Whether so many batches were kept, and nothing else happened.
    pub fn is_whole(&self, batches: u64) -> bool {
        self.is_open && self.kept == batches && self.broken == Ended::Kept
    }

    fn note_later(&mut self, ended: Ended) {
        let count = match ended {
            Ended::Kept => &mut self.kept_later,
            Ended::GivenUp => &mut self.given_up,
            Ended::Unknown => &mut self.unknown,
            Ended::Halted => &mut self.halted,
            Ended::Other => &mut self.other,
        };
        *count = count.saturating_add(1);
    }

    fn end(&mut self, ended: Ended) {
        if self.broken != Ended::Kept {
            self.note_later(ended);
        } else if ended == Ended::Kept {
            self.kept = self.kept.saturating_add(1);
        } else {
            self.broken = ended;
        }
    }

    fn note(&mut self, at: u64, answer: &Result<Together, Stop>) {
        self.told = self.told.wrapping_add(told_by(at, answer));
        self.end(end_of(answer));
    }
}

/// A digest of what replies name. It begins with the number of their batch.
fn told(at: u64, replies: &[Reply]) -> u64 {
    let mut digest = at;
    for reply in replies {
        digest = digest_of(digest, &numbered(reply).to_le_bytes());
    }
    digest
}

fn told_by(at: u64, answer: &Result<Together, Stop>) -> u64 {
    match answer {
        Ok(Together::Replied(replies)) => told(at, replies.as_slice()),
        _ => 0,
    }
}

fn end_of(answer: &Result<Together, Stop>) -> Ended {
    match answer {
        Ok(Together::Replied(_replies)) => Ended::Kept,
        Ok(Together::NotApplied(Code::StoreRefused)) => Ended::GivenUp,
        Ok(Together::NotApplied(_code)) => Ended::Other,
        Err(Stop::Unknown) => Ended::Unknown,
        Err(Stop::Halted) => Ended::Halted,
    }
}

fn add(alloc: Global, list: &mut Vec<Command>, number: u64) -> bool {
    match command_at(alloc, number) {
        Some(command) => list.push(command).is_ok(),
        None => false,
    }
}

/// The commands of a batch, as many as an engine answers together.
fn batch(alloc: Global, size: u64, batch: u64) -> Option<Vec<Command>>
    ensures some { IfSome result (λ list. 1 ≤ length list.items) }
    ensures most { IfSome result (λ list. length list.items ≤ 64) }
{
    let mut list = Vec::new(alloc);
    let mut are = true;
    for n in 0..size {
        are = add(
            alloc,
            &mut list,
            batch.saturating_mul(size).saturating_add(n),
        ) && are;
    }
    let count = list.as_slice().len();
    if are && count >= 1 && count <= 64 {
        return Some(list);
    }
    None
}

fn ask<S: Alter>(alloc: Global, engine: &mut Engine<S>, size: u64, at: u64, course: &mut Course) {
    match batch(alloc, size, at) {
        Some(commands) => course.note(at, &engine.answer_together(commands)),
        None => course.end(Ended::Other),
    }
}

fn ask_all<S: Alter>(alloc: Global, engine: &mut Engine<S>, plan: Plan) -> Course {
    let mut course = Course::new(true);
    for at in plan.from..plan.to {
        if plan.without != Some(at) {
            ask(alloc, engine, plan.size, at, &mut course);
        }
    }
    course
}

/// What becomes of batches that are asked of an engine which is opened for them alone, and the store behind them.
pub fn asked<S: Alter>(alloc: Global, conn: Connection<S>, plan: Plan) -> (Course, Connection<S>) {
    match Engine::open(alloc, conn, Settings::usual()) {
        Ok(engine) => {
            let mut engine = engine;
            let course = ask_all(alloc, &mut engine, plan);
            (course, engine.close())
        }
        Err((_fault, conn)) => (Course::new(false), conn),
    }
}
