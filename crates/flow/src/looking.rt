//! A second look at a file that isn't opened as a store: why it isn't.
ghost use Rattle.flow.specs.Openings.{HasLooked, IsOfPath};

use flow_cli::reason::Unopened;
use sqlite::ErrorCode;
use std::fs;
use std::fs::{File, OpenOptions};
use std::io::{ErrorKind, Read};
use std::os::unix::fs::MetadataExt;
use std::path::Path;

/// Whether the folder that a file of this name would stand in is there.
fn has_folder(rt: &HostRuntime, file: &str) -> bool {
    match Path::new(file).parent() {
        Some(folder) => folder.as_str().is_empty() || folder.is_dir(rt),
        None => false,
    }
}

/// Whether a file can have this name: the others are SQLite's for what is no file.
fn is_name(file: &str) -> bool {
    !(file.is_empty() || file == ":memory:" || file.starts_with("file:"))
}

/// Whether nothing has this name, in a folder that is there.
pub fn is_not_there(rt: &HostRuntime, file: &str) -> bool {
    if !is_name(file) {
        return false;
    }
    match fs::metadata(rt, file) {
        Ok(_) => false,
        Err(error) => error.kind() == ErrorKind::NotFound && has_folder(rt, file),
    }
}

/// Whether a file has another name beside it, with something in it.
fn has_beside(rt: &HostRuntime, file: &str, end: &str) -> bool {
    match format!(in rt.alloc(); "{file}{end}") {
        Ok(path) => match fs::symlink_metadata(rt, path.as_str()) {
            Ok(found) => !found.is_file() || found.len() != 0,
            Err(_) => false,
        },
        Err(_) => false,
    }
}

/// Why a file with one name can't be opened.
fn look_inside(rt: &HostRuntime, file: &str) -> Unopened
    ensures { IsOfPath result }
{
    match OpenOptions::new().read(true).write(true).open(rt, file) {
        Err(error) => match error.kind() {
            ErrorKind::PermissionDenied | ErrorKind::ReadOnlyFilesystem => Unopened::Forbidden,
            _ => Unopened::Failed,
        },
        Ok(_) if has_beside(rt, file, "-journal") => Unopened::Journal,
        Ok(_) => Unopened::Forbidden,
    }
}

/// Why nothing can be opened by this name.
fn look_at(rt: &HostRuntime, file: &str) -> Unopened
    ensures { IsOfPath result }
{
    if !is_name(file) {
        return Unopened::NoName;
    }
    match fs::metadata(rt, file) {
        Ok(found) if found.is_dir() => Unopened::Folder,
        Ok(found) if !found.is_file() => Unopened::NotAFile,
        Ok(found) if found.nlink() != 1 => Unopened::SecondName,
        Ok(_) => look_inside(rt, file),
        Err(_) if !has_folder(rt, file) => Unopened::NoFolder,
        Err(_) => Unopened::Forbidden,
    }
}

/// Whether a file begins as those of SQLite do.
fn is_database(rt: &HostRuntime, file: &str) -> bool {
    let Ok(mut opened) = File::open(rt, file) else {
        return false;
    };
    let mut begins = [0; 16];
    match opened.read(&mut begins) {
        Ok(16) => &begins == b"SQLite format 3\0",
        _ => false,
    }
}

/// Why a file isn't opened as a database, by what was said of it.
pub fn unopened(rt: &HostRuntime, file: &str, said: ErrorCode) -> Unopened
    ensures { HasLooked said result }
{
    match said {
        ErrorCode::DatabaseBusy => Unopened::Busy,
        ErrorCode::CannotOpen => look_at(rt, file),
        ErrorCode::NotADatabase | ErrorCode::DatabaseCorrupt => {
            if is_database(rt, file) {
                Unopened::Broken
            } else {
                Unopened::NotADatabase
            }
        }
        ErrorCode::DiskFull => Unopened::Full,
        _ => Unopened::Failed,
    }
}
