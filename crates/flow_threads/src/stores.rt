//! The one file of all races, which may fail.
use sqlite::{Connection, File, FileStore, Files, Options};
use sqlite_disk::{Disk, Fuse};
use sqlite_std_file::Unknown;
use std::alloc::Global;
use std::fs;

/// The file, in the folder where the program runs.
const FILE: &str = "threads.db";

const LOG: &str = "threads.db-wal";

/// A file of which every call fails behind so many.
pub type Store = FileStore<Fuse<File>>;

/// Takes the file away.
pub fn clear(host: &HostRuntime) {
    let _ = fs::remove_file(host, FILE);
    let _ = fs::remove_file(host, LOG);
}

fn open_over<D: Disk + Drop>(
    alloc: Global,
    files: Files<D>,
    calls: u64,
) -> Option<Connection<FileStore<Fuse<D>>>> {
    let Files { log, db } = files;
    let files = Files {
        log: Fuse::new(log, calls),
        db: Fuse::new(db, u64::MAX),
    };
    if !files.may_be_used() {
        return None;
    }
    match Connection::open_files(alloc, files, Options::new(1)) {
        Ok(conn) => Some(conn),
        Err((_error, left)) => {
            let _files = left.into_files();
            None
        }
    }
}

/// The store as the file has it, a new one where there is none. Its log passes so many calls on.
pub fn open(host: &HostRuntime, calls: u64) -> Option<Connection<Store>> {
    let files = sqlite_std_file::open(host, FILE, Unknown).ok()?;
    open_over(host.alloc(), files, calls)
}

/// Lets go of the store. What the log holds is copied into the file, where the log doesn't fail.
pub fn close(conn: Connection<Store>) {
    let _ = conn.close();
}
