//! The turns that are taken over the file, one after the other, and what came of them.
use crate::judging::{in_order, numbers_in, numbers_of, verdict};
use crate::note::{Note, Raced};
use crate::plan::{Asked, Plan, race_at};
use std::alloc::Global;

/// What is done over the store at once.
#[derive(Clone, Copy)]
pub enum Turn {
    /// Over a new one, on many threads.
    Race(Plan),
    /// Over the same one: the commands that have a receipt, on one thread.
    Again(Plan),
    /// The same over a new one; all commands of the plan where there was no race.
    Anew(Plan),
}

impl Turn {
    pub fn plan(self) -> Plan {
        match self {
            Turn::Race(plan) | Turn::Again(plan) | Turn::Anew(plan) => plan,
        }
    }

    /// Whether the store is to be new.
    pub fn is_anew(self) -> bool {
        !matches!(self, Turn::Again(_))
    }

    /// How many calls of its log don't fail.
    pub fn calls(self) -> u64 {
        match self {
            Turn::Race(plan) => plan.calls,
            _ => u64::MAX,
        }
    }
}

/// The turn at this number, where there is one.
pub fn turn_at(asked: Asked, at: u64) -> Option<Turn> {
    match asked {
        Asked::Races => {
            let plan = race_at(at / 3)?;
            match at % 3 {
                0 => Some(Turn::Race(plan)),
                1 => Some(Turn::Again(plan)),
                _ => Some(Turn::Anew(plan)),
            }
        }
        Asked::Serve(plan) if at == 0 => Some(Turn::Race(plan)),
        Asked::Drive(plan) if at == 0 => Some(Turn::Anew(plan)),
        _ => None,
    }
}

/// What came of the last turn of each kind. None: the file was refused, or memory.
#[derive(Drop)]
pub struct Course {
    raced: Option<Raced>,
    again: Option<Raced>,
    anew: Option<Raced>,
}

/// What one thread is answered.
pub fn alone(alloc: Global, notes: Vec<Note>) -> Option<Raced> {
    let published = notes.len() as u64;
    let mut all = Vec::new(alloc);
    all.push(notes).ok()?;
    Some(Raced {
        notes: all,
        published,
        ended: 0,
    })
}

/// The answers of the only thread.
fn only(raced: &Option<Raced>) -> Option<&[Note]> {
    match raced {
        Some(raced) => Some(raced.notes.first()?.as_slice()),
        None => None,
    }
}

impl Course {
    pub fn new() -> Course {
        Course {
            raced: None,
            again: None,
            anew: None,
        }
    }

    /// What has come of a turn.
    pub fn put(&mut self, turn: Turn, made: Option<Raced>) {
        match turn {
            Turn::Race(_) => self.raced = made,
            Turn::Again(_) => self.again = made,
            Turn::Anew(_) => self.anew = made,
        }
    }

    /// The numbers of the commands that one thread is to commit.
    pub fn numbers(&self, alloc: Global, plan: Plan) -> Option<Vec<u64>> {
        match &self.raced {
            Some(raced) => {
                let receipts = in_order(alloc, raced.notes.as_slice())?;
                numbers_in(alloc, receipts.as_slice())
            }
            None => numbers_of(alloc, plan),
        }
    }

    /// The number by which serving has ended in the race, and what isn't as it should be.
    pub fn judged(&self, alloc: Global, plan: Plan) -> Option<(u8, &'static str)> {
        match &self.raced {
            Some(raced) => {
                let receipts = in_order(alloc, raced.notes.as_slice())?;
                let again = only(&self.again)?;
                let anew = only(&self.anew)?;
                let told = verdict(raced, plan, receipts.as_slice(), again, anew);
                Some((raced.ended, told))
            }
            None => None,
        }
    }
}
