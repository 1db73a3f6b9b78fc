//! The two files of a store in memory, over disks that count calls or refuse some of them.
use crate::books::found;
use crate::course::{Course, Ended, Plan, asked};
use flow_crash::calls::{Calls, Part, Stop};
use flow_crash::counting::Counting;
use flow_crash::fail_at::FailAt;
use flow_crash::numbered::Numbered;
use flow_crash::rule::Rule;
use flow_crash::stop_at::StopAt;
use sqlite::{Alter, Connection, FileStore, Files, Options};
use sqlite_disk::{Crash, Disk, Memory};
use std::alloc::Global;

/// Two empty files.
pub fn empty(alloc: Global) -> Files<Memory> {
    Files {
        log: Memory::new(alloc),
        db: Memory::new(alloc),
    }
}

fn copied(alloc: Global, file: &Memory) -> Option<Memory> {
    let mut copy = Memory::new(alloc);
    copy.write_at(0, file.bytes()).ok()?;
    copy.sync().ok()?;
    Some(copy)
}

/// The same two files once more, all of it synced.
pub fn copies(alloc: Global, files: &Files<Memory>) -> Option<Files<Memory>> {
    let log = copied(alloc, &files.log)?;
    let db = copied(alloc, &files.db)?;
    Some(Files { log, db })
}

/// What is left of files where the machine stops: what was synced alone.
pub fn crashed(files: Files<Memory>) -> Files<Memory> {
    let mut files = files;
    files.log.crash();
    files.db.crash();
    files
}

/// A connection over two files, or the files.
pub fn opened<D: Disk + Drop>(
    alloc: Global,
    files: Files<D>,
) -> Result<Connection<FileStore<D>>, Files<D>> {
    if !files.may_be_used() {
        return Err(files);
    }
    // With one page at hand a read asks the disk, so that it may fail too.
    let mut options = Options::new(1);
    options.cache_pages = 1;
    match Connection::open_files(alloc, files, options) {
        Ok(conn) => Ok(conn),
        Err((_, left)) => Err(left.into_files()),
    }
}

/// What became of batches, and the book that was found over the same connection, if nobody knew of one of them.
#[derive(Clone, Copy)]
pub struct Asked {
    pub course: Course,
    pub again: Option<u64>,
}

fn found_again<S: Alter>(
    alloc: Global,
    conn: Connection<S>,
    course: Course,
) -> (Option<u64>, Connection<S>) {
    if course.broken == Ended::Unknown {
        return found(alloc, conn);
    }
    (None, conn)
}

/// What becomes of batches over these files, and the files behind them.
pub fn asked_of<D: Disk + Drop>(alloc: Global, files: Files<D>, plan: Plan) -> (Asked, Files<D>) {
    match opened(alloc, files) {
        Ok(conn) => {
            let (course, conn) = asked(alloc, conn, plan);
            let (again, conn) = found_again(alloc, conn, course);
            (Asked { course, again }, conn.into_store().close())
        }
        Err(files) => {
            let course = Course::new(false);
            (
                Asked {
                    course,
                    again: None,
                },
                files,
            )
        }
    }
}

/// The book that is found in these files.
pub fn found_in(alloc: Global, files: Files<Memory>) -> Option<u64> {
    match opened(alloc, files) {
        Ok(conn) => {
            let (book, conn) = found(alloc, conn);
            let _files = conn.into_store().close();
            book
        }
        Err(_files) => None,
    }
}

/// What became of batches over files of which calls were refused, or none, and what is left of them.
#[derive(Drop)]
pub struct Disturbed {
    pub asked: Asked,
    pub files: Files<Memory>,
    /// Whether a call was refused.
    pub is_reached: bool,
}

/// Files whose calls have numbers by these rules.
fn with_rules<R: Rule + Drop>(
    files: Files<Memory>,
    log_rule: R,
    db_rule: R,
) -> Files<Numbered<Memory, R>> {
    let Files { log, db } = files;
    Files {
        log: Numbered::new(log, log_rule),
        db: Numbered::new(db, db_rule),
    }
}

/// Whether a call was refused, and what is left of the files.
pub fn left_of<R: Rule + Drop>(files: Files<Numbered<Memory, R>>) -> (bool, Files<Memory>) {
    let is_reached = files.log.refusals() > 0 || files.db.refusals() > 0;
    let Files { log, db } = files;
    (
        is_reached,
        Files {
            log: log.into_inner(),
            db: db.into_inner(),
        },
    )
}

fn asked_through<R: Rule + Drop>(
    alloc: Global,
    files: Files<Numbered<Memory, R>>,
    plan: Plan,
) -> Disturbed {
    let (asked, files) = asked_of(alloc, files, plan);
    let (is_reached, files) = left_of(files);
    Disturbed {
        asked,
        files,
        is_reached,
    }
}

/// Over files that stop.
pub fn stopped(alloc: Global, files: Files<Memory>, stop: Stop, plan: Plan) -> Option<Disturbed> {
    let calls = Calls::new(alloc).ok()?;
    let log_rule = StopAt::new(calls.share().ok()?, stop);
    let db_rule = StopAt::new(calls.share().ok()?, stop);
    let files = with_rules(files, log_rule, db_rule);
    Some(asked_through(alloc, files, plan))
}

/// Files that count their calls together, of which one fails.
pub fn failing(
    files: Files<Memory>,
    calls: &Calls,
    at: u64,
) -> Option<Files<Numbered<Memory, FailAt>>> {
    let log_rule = FailAt::new(calls.share().ok()?, at);
    let db_rule = FailAt::new(calls.share().ok()?, at);
    Some(with_rules(files, log_rule, db_rule))
}

/// Over files of which one call fails.
pub fn failed(alloc: Global, files: Files<Memory>, at: u64, plan: Plan) -> Option<Disturbed> {
    let calls = Calls::new(alloc).ok()?;
    let files = failing(files, &calls, at)?;
    Some(asked_through(alloc, files, plan))
}

/// Files that count their calls together.
pub fn counting(files: Files<Memory>, calls: &Calls) -> Option<Files<Numbered<Memory, Counting>>> {
    let log_rule = Counting::new(calls.share().ok()?);
    let db_rule = Counting::new(calls.share().ok()?);
    Some(with_rules(files, log_rule, db_rule))
}

/// What became of batches over files that count their calls, how many they were, and what is left of the files.
#[derive(Drop)]
pub struct Counted {
    pub course: Course,
    pub calls: u64,
    pub files: Files<Memory>,
}

/// Over files that count.
pub fn undisturbed(alloc: Global, files: Files<Memory>, plan: Plan) -> Option<Counted> {
    let calls = Calls::new(alloc).ok()?;
    let files = counting(files, &calls)?;
    let (asked, files) = asked_of(alloc, files, plan);
    let (_is_reached, files) = left_of(files);
    Some(Counted {
        course: asked.course,
        calls: calls.count(),
        files,
    })
}

/// How many calls batches need over copies of these files, if all are kept.
pub fn calls_over(alloc: Global, base: &Files<Memory>, plan: Plan) -> Option<u64> {
    let Counted { course, calls, .. } = undisturbed(alloc, copies(alloc, base)?, plan)?;
    if course.is_whole(plan.to) {
        Some(calls)
    } else {
        None
    }
}

/// New files behind batches: of a store that was closed, or of one that stopped so many calls before the last one.
pub fn left_by(alloc: Global, plan: Plan, before: Option<u64>) -> Option<Files<Memory>> {
    let Counted { calls, files, .. } = undisturbed(alloc, empty(alloc), plan)?;
    let Some(before) = before else {
        return Some(files);
    };
    let stop = Stop {
        at: calls.saturating_sub(before),
        part: Part::Before,
    };
    let Disturbed { files, .. } = stopped(alloc, empty(alloc), stop, plan)?;
    Some(files)
}
