//! What one thread gets for the same commands.
use crate::commands::{command, note_of};
use crate::course::alone;
use crate::note::{Note, Raced};
use crate::racing::limited;
use flow_base::submission::Taken;
use flow_commit::batch::Batch;
use flow_engine::done::Done;
use flow_engine::drive::drive;
use flow_engine::engine::Engine;
use sqlite::Alter;
use std::alloc::Global;

fn batch_of(alloc: Global, numbers: &[u64]) -> Option<Batch> {
    let mut taken = Vec::new(alloc);
    for number in numbers {
        let command = command(alloc, *number)?;
        taken
            .push(Taken {
                ticket: *number,
                command,
            })
            .ok()?;
    }
    if taken.is_empty() || taken.len() > 64 {
        return None;
    }
    Some(Batch::of(taken))
}

fn batches_of(alloc: Global, numbers: &[u64], most: usize) -> Option<Vec<Batch>> {
    let mut batches = Vec::new(alloc);
    for some in numbers.chunks(limited(most)) {
        batches.push(batch_of(alloc, some)?).ok()?;
    }
    Some(batches)
}

/// What is noted of all that is kept.
fn notes_of(alloc: Global, dones: &[Done]) -> Option<Vec<Note>> {
    let mut notes = Vec::new(alloc);
    for done in dones {
        if let Done::Kept(receipts) = done {
            for receipt in receipts {
                notes.push(note_of(receipt)).ok()?;
            }
        }
    }
    Some(notes)
}

/// Commits the commands of these numbers in batches of at most so many.
pub fn driven<S: Alter>(
    alloc: Global,
    engine: &mut Engine<S>,
    numbers: &[u64],
    most: usize,
) -> Option<Raced> {
    match drive(engine, batches_of(alloc, numbers, most)?) {
        Ok(dones) => alone(alloc, notes_of(alloc, dones.as_slice())?),
        Err((_batches, _error)) => None,
    }
}
