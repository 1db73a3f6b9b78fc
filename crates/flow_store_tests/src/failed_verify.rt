//! A filled store of which one call fails while its runs are all replayed, each one in turn. What is reported is what the store holds,
//! or that it refused, and never a run that doesn't replay. The engine goes on, and the book is as it was.
use crate::course::FILLING;
use crate::files::{copies, counting, failing, found_in, left_by, left_of, opened};
use crate::stride::{is_met, stride};
use flow_crash::calls::Calls;
use flow_engine::engine::Engine;
use flow_settings::settings::Settings;
use sqlite::{Alter, Connection, Files};
use sqlite_disk::{Disk, Memory};
use std::alloc::Global;
use std::test::Fail;

/// What an engine reports of its store.
#[derive(Clone, Copy, PartialEq, Eq)]
enum Reported {
    /// How many texts, runs and events it has.
    Holds(u64, u64, u64),
    /// The number of a refusal.
    Refused(u8),
}

fn report_of<S: Alter>(engine: &mut Engine<S>) -> Reported {
    match &engine.verify() {
        Ok(totals) => Reported::Holds(totals.texts, totals.runs, totals.events),
        Err(fault) => Reported::Refused(fault.code().number()),
    }
}

/// What is reported twice, and how many calls were asked before the first report and behind it.
#[derive(Clone, Copy)]
struct Twice {
    from: u64,
    first: Reported,
    to: u64,
    second: Reported,
}

fn reported_twice<S: Alter>(engine: &mut Engine<S>, calls: &Calls) -> Twice {
    let from = calls.count();
    let first = report_of(engine);
    let to = calls.count();
    let second = report_of(engine);
    Twice {
        from,
        first,
        to,
        second,
    }
}

fn verified<S: Alter>(
    alloc: Global,
    conn: Connection<S>,
    calls: &Calls,
) -> (Option<Twice>, Connection<S>) {
    match Engine::open(alloc, conn, Settings::usual()) {
        Ok(engine) => {
            let mut engine = engine;
            let twice = reported_twice(&mut engine, calls);
            (Some(twice), engine.close())
        }
        Err((_fault, conn)) => (None, conn),
    }
}

/// What is reported of the store in these files, and the files. None: it isn't opened.
fn verified_in<D: Disk + Drop>(
    alloc: Global,
    files: Files<D>,
    calls: &Calls,
) -> (Option<Twice>, Files<D>) {
    match opened(alloc, files) {
        Ok(conn) => {
            let (twice, conn) = verified(alloc, conn, calls);
            (twice, conn.into_store().close())
        }
        Err(files) => (None, files),
    }
}

fn undisturbed(alloc: Global, base: &Files<Memory>) -> Option<Twice> {
    let calls = Calls::new(alloc).ok()?;
    let files = counting(copies(alloc, base)?, &calls)?;
    let (twice, _files) = verified_in(alloc, files, &calls);
    twice
}

/// What is reported where this call fails, if it's reached, and the book that is found afterwards.
fn disturbed(alloc: Global, base: &Files<Memory>, at: u64) -> Option<(Twice, Option<u64>)> {
    let calls = Calls::new(alloc).ok()?;
    let files = failing(copies(alloc, base)?, &calls, at)?;
    let (twice, files) = verified_in(alloc, files, &calls);
    let (has_failed, files) = left_of(files);
    let book = found_in(alloc, files);
    if has_failed {
        Some((twice?, book))
    } else {
        None
    }
}

/// How many failing calls came to what.
#[derive(Clone, Copy)]
struct Failures {
    held: u64,
    refused: u64,
    wrong: u64,
}

impl Failures {
    fn count(&mut self, first: Reported, wanted: Reported) {
        let count = if first == wanted {
            &mut self.held
        } else if first == Reported::Refused(80) {
            &mut self.refused
        } else {
            &mut self.wrong
        };
        *count = count.saturating_add(1);
    }

    /// The second report is the undisturbed one, since no other call fails.
    fn note(&mut self, found: Option<(Twice, Option<u64>)>, wanted: Reported, book: Option<u64>) {
        match found {
            Some((twice, left)) if twice.second == wanted && left == book => {
                self.count(twice.first, wanted);
            }
            _ => self.wrong = self.wrong.saturating_add(1),
        }
    }
}

/// The calls that a report needs, and how many of those that fail left it as it is, had it refused with E80, and were wrong.
fn swept(alloc: Global, base: &Files<Memory>, book: Option<u64>, step: u64) -> Option<[u64; 4]> {
    let usual = undisturbed(alloc, base)?;
    let mut failures = Failures {
        held: 0,
        refused: 0,
        wrong: 0,
    };
    for call in usual.from..usual.to {
        let at = call.saturating_add(1);
        if is_met(at, 1, step) {
            failures.note(disturbed(alloc, base, at), usual.first, book);
        }
    }
    let calls = usual.to.saturating_sub(usual.from);
    Some([calls, failures.held, failures.refused, failures.wrong])
}

/// Of a store that is filled and closed.
fn figures_of(alloc: Global, step: u64) -> Option<[u64; 4]> {
    let base = left_by(alloc, FILLING, None)?;
    let book = found_in(alloc, copies(alloc, &base)?);
    if undisturbed(alloc, &base)?.first != HELD {
        return None;
    }
    swept(alloc, &base, book, step)
}

/// What the filled store holds, counted by hand along the rule's commands: two texts, and a run that was signalled and ended early (8
/// events), one that was signalled and sleeps (7), one that was sent a signal which it doesn't know, and waits (4), and one whose only
/// activity has failed once (2).
const HELD: Reported = Reported::Holds(2, 4, 21);

fn are_right(figures: Option<[u64; 4]>) -> bool {
    match figures {
        Some(figures) => figures[2] > 0 && figures[3] == 0,
        None => false,
    }
}

#[test]
fn a_failure_is_no_mismatch(rt: HostRuntime) -> Result<(), Fail> {
    let figures = figures_of(rt.alloc(), stride(&rt, 24));
    println!(rt; "failures in a verify: {figures:?}")?;
    assert!(rt; are_right(figures));
    Ok(())
}
