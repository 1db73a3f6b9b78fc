//! Why, in words: what is said of a fault behind its line.
ghost use Rattle.std.specs.Prelude.{◌≡◌, map, IfOk, string_bytes};
ghost use Rattle.flow_cli.specs.Usages.{meant_by};
ghost use Rattle.flow_cli.specs.Reasons.{EndsBy, ReadsAs, SaysFile, SaysSettings, SaysStore, damage_words, mismatch_words, reason_of, reason_text, row_text, rule_words, setting_name, setting_text, unopened_words, unreadable_words};

use crate::usage::{CallName, meant, usage};
use flow_base::event::Wrong;
use flow_base::fault::{Damage, Fault, Table};
use flow_base::number::RunId;
use std::alloc::{AllocError, AllocFailed, Global};
use std::io::ErrorKind;

/// What is said where memory ran out. None is needed to say it.
pub(crate) const MEMORY: &str = "  memory was refused, or a thread\n";

/// Why a file can't be read as a text.
#[derive(Clone, Copy, Debug, PartialEq, Eq)]
pub enum Unreadable {
    Missing,
    Folder,
    Forbidden,
    NotUtf8,
    /// For any other cause, as a disk that fails.
    Failed,
}

impl Unreadable {
    /// What the system's error says of it.
    pub fn of(error: ErrorKind) -> Unreadable
        ensures { ReadsAs error result }
    {
        match error {
            ErrorKind::NotFound => Unreadable::Missing,
            ErrorKind::IsADirectory => Unreadable::Folder,
            ErrorKind::PermissionDenied => Unreadable::Forbidden,
            ErrorKind::InvalidData => Unreadable::NotUtf8,
            _ => Unreadable::Failed,
        }
    }

    fn words(self) -> &'static str
        ensures { result.now ≡ unreadable_words self }
    {
        match self {
            Unreadable::Missing => "no such file",
            Unreadable::Folder => "is a folder",
            Unreadable::Forbidden => "this user may not read it",
            Unreadable::NotUtf8 => "not UTF-8",
            Unreadable::Failed => "reading it failed",
        }
    }
}

/// Why a store isn't opened, as far as its file tells.
#[derive(Clone, Copy, Debug, PartialEq, Eq)]
pub enum Unopened {
    /// Another program has the file open.
    Busy,
    /// The folder that it would stand in isn't there.
    NoFolder,
    Folder,
    /// It is no file of bytes, as a device.
    NotAFile,
    /// This user may not write it, or not make it.
    Forbidden,
    /// It has a second name.
    SecondName,
    /// SQLite left a journal, which SQLite alone can play back.
    Journal,
    /// The name is none of a file.
    NoName,
    /// Its bytes are no database.
    NotADatabase,
    /// It breaks a rule of its tables, or has what isn't read.
    Broken,
    Full,
    /// For any other cause, as a disk that fails.
    Failed,
}

impl Unopened {
    fn words(self) -> &'static str
        ensures { result.now ≡ unopened_words self }
    {
        match self {
            Unopened::Busy => "another program has it open",
            Unopened::NoFolder => "its folder isn't there",
            Unopened::Folder => "is a folder",
            Unopened::NotAFile => "is no file of bytes",
            Unopened::Forbidden => "this user may not write it, or not make files beside it",
            Unopened::SecondName => "the file has a second name (a hard link): remove one",
            Unopened::Journal => "SQLite left a journal beside it: open it once with sqlite3",
            Unopened::NoName => "is no name of a file",
            Unopened::NotADatabase => "not an SQLite file",
            Unopened::Broken => {
                "it breaks a rule of its tables, or has what flow doesn't read: try sqlite3 on a copy with 'pragma integrity_check; pragma foreign_key_check'"
            }
            Unopened::Full => "the disk is full",
            Unopened::Failed => "reading or writing it failed",
        }
    }
}

/// A key of settings.
#[derive(Clone, Copy, Debug, PartialEq, Eq)]
pub enum SettingKey {
    Batch,
    Workers,
    Cache,
}

impl SettingKey {
    /// Its name in a file.
    pub fn name(self) -> &'static str
        ensures { result.now ≡ setting_name self }
    {
        match self {
            SettingKey::Batch => "batch",
            SettingKey::Workers => "workers",
            SettingKey::Cache => "cache",
        }
    }
}

/// What a file of settings may not have.
#[derive(Debug, Drop)]
pub enum BadSetting {
    /// It is no TOML from this place on.
    NotToml { line: usize, column: usize },
    /// A key that settings don't have.
    OtherKey(String),
    /// The value of this key is no whole number from 1 to the most.
    BadValue { key: SettingKey, most: usize },
}

impl BadSetting {
    fn words(&self, alloc: Global) -> Result<String, AllocError>
        ensures { IfOk result (λ words. string_bytes words ≡ setting_text self.now) }
    {
        match self {
            BadSetting::NotToml { line, column } => {
                format!(in alloc; "line {line}, column {column}: no TOML")
            }
            BadSetting::OtherKey(key) => {
                format!(in alloc; "no key is called {key}, but batch, workers and cache")
            }
            BadSetting::BadValue { key, most } => {
                let key = key.name();
                format!(in alloc; "{key} has to be a whole number from 1 to {most}")
            }
        }
    }
}

/// The row that is damaged.
fn row(alloc: Global, damage: &Damage) -> Result<String, AllocError>
    ensures { IfOk result (λ words. string_bytes words ≡ row_text damage.now) }
{
    let run = damage.run;
    let place = damage.place;
    match damage.table {
        Table::Text => format!(in alloc; "text {place}"),
        Table::Run => format!(in alloc; "run {run}"),
        Table::Event => format!(in alloc; "event {place} of run {run}"),
        Table::Timer => format!(in alloc; "timer {place} of run {run}"),
        Table::Outbox => format!(in alloc; "open activity {place} of run {run}"),
    }
}

/// What is wrong with a row of a table that reads, or isn't there.
fn broken_rule(table: Table) -> &'static str
    ensures { result.now ≡ rule_words table }
{
    match table {
        Table::Text => "is missing, or no program",
        Table::Run | Table::Event => "is missing, or breaks a rule of its table",
        Table::Timer | Table::Outbox => "isn't what the history leaves open",
    }
}

/// What is wrong with a damaged row.
fn damage_words(damage: &Damage) -> &'static str
    ensures { result.now ≡ damage_words damage.now }
{
    let Some(cause) = damage.cause else {
        return broken_rule(damage.table);
    };
    let number = cause.number();
    if number == 30 {
        "its kind isn't 1 to 13"
    } else if number == 31 {
        "its body isn't one of its kind"
    } else if number == 32 {
        "its body is spelled in another way than flow does"
    } else {
        broken_rule(damage.table)
    }
}

/// What is wrong with the event at which a history goes another way than its text.
fn mismatch_words(name: Wrong) -> &'static str
    ensures { result.now ≡ mismatch_words name }
{
    match name {
        Wrong::OtherKind => "its text asks for something of another kind there",
        Wrong::OtherContent => "its text asks for the same there, with other contents",
        Wrong::MissingEvent => "its text asks for something there that its history doesn't have",
        Wrong::ExtraEvent => "its text doesn't ask for what its history has there",
        Wrong::NotAwaited => "its text doesn't wait for what came there",
        Wrong::AfterClose => "its history goes on behind its end",
        Wrong::BadNumbering => "its number isn't its place, or its moment can't be",
    }
}

/// Why the program ended early.
#[derive(Debug, Drop)]
pub enum Reason {
    /// Nothing more is said than the fault's line.
    Nothing,
    Memory,
    /// The words aren't this call, or none.
    Usage(Option<CallName>),
    /// The file that can't be read.
    File(String, Unreadable),
    /// The file that gives no settings.
    Settings(String, BadSetting),
    /// The file of a store that isn't opened.
    Store(String, Unopened),
    /// The tables of a store aren't ours.
    NotOurs,
    BadVersion,
    /// The first damaged row.
    Row(Damage),
    /// The first run that doesn't replay.
    Run {
        run: RunId,
        place: usize,
        name: Wrong,
    },
}

impl Reason {
    /// What a fault tells by itself.
    pub fn of(fault: &Fault) -> Reason
        ensures { result ≡ reason_of fault.now }
    {
        match fault {
            Fault::NoMemory(_) => Reason::Memory,
            Fault::Mismatch { run, place, name } => Reason::Run {
                run: *run,
                place: *place,
                name: *name,
            },
            Fault::NotOurs => Reason::NotOurs,
            Fault::BadVersion => Reason::BadVersion,
            Fault::Damaged(damage) => Reason::Row(*damage),
            _ => Reason::Nothing,
        }
    }

    /// What is said behind the line of the fault: lines that begin with two spaces, each with its end.
    pub fn lines(&self, alloc: Global) -> Result<String, AllocError>
        ensures { IfOk result (λ lines. string_bytes lines ≡ reason_text self.now) }
    {
        match self {
            Reason::Nothing => Ok(String::new(alloc)),
            Reason::Memory => String::from_str(alloc, MEMORY),
            Reason::Usage(call) => String::from_str(alloc, usage(*call)),
            Reason::File(path, why) => {
                let words = why.words();
                format!(in alloc; "  {path}: {words}\n")
            }
            Reason::Settings(path, why) => {
                let words = why.words(alloc)?;
                format!(in alloc; "  {path}: {words}\n")
            }
            Reason::Store(path, why) => {
                let words = why.words();
                format!(in alloc; "  {path}: {words}\n")
            }
            Reason::NotOurs => String::from_str(
                alloc,
                "  it has tables of flow's names that aren't flow's, or rows that can't be read\n",
            ),
            Reason::BadVersion => String::from_str(
                alloc,
                "  another version of flow made it: its format isn't 1 or 2\n",
            ),
            Reason::Row(damage) => {
                let row = row(alloc, damage)?;
                let words = damage_words(damage);
                format!(in alloc; "  {row}: {words}\n")
            }
            Reason::Run { run, place, name } => {
                let run = run.get();
                let words = mismatch_words(*name);
                format!(in alloc; "  run {run}, event {place}: {words}\n")
            }
        }
    }
}

/// An early end: its fault, and why.
#[derive(Debug, Drop)]
pub struct Early {
    pub fault: Fault,
    pub reason: Reason,
}

impl From<Fault> for Early {
    ghost use Rattle.std.specs.Prelude.{◌≡◌};
    ghost use Rattle.flow_cli.specs.Reasons.{early_of};

    ghost from_gives = { λ fault early. early ≡ early_of fault };

    fn from(fault: Fault) -> Early {
        Early {
            fault,
            reason: Reason::of(&fault),
        }
    }
}

impl From<AllocError> for Early {
    ghost use Rattle.std.specs.Prelude.{◌≡◌};
    ghost use Rattle.flow_base.specs.declared.fault.Fault.TheVariants.{NoMemory};
    ghost use Rattle.flow_cli.specs.Reasons.{early_of};

    ghost from_gives = { λ _ early. early ≡ early_of (NoMemory _) };

    fn from(refused: AllocError) -> Early {
        Early::from(Fault::from(refused))
    }
}

impl<T: Drop> From<AllocFailed<T>> for Early {
    ghost use Rattle.std.specs.Prelude.{◌≡◌};
    ghost use Rattle.flow_base.specs.declared.fault.Fault.TheVariants.{NoMemory};
    ghost use Rattle.flow_cli.specs.Reasons.{early_of};

    ghost from_gives = { λ _ early. early ≡ early_of (NoMemory _) };

    fn from(refused: AllocFailed<T>) -> Early {
        Early::from(Fault::from(refused))
    }
}

impl Early {
    /// The end of a call whose file can't be read, by this fault; by E01 where memory for the file's name is wanting.
    pub fn unread(alloc: Global, fault: Fault, file: &str, error: ErrorKind) -> Early
        ensures { EndsBy fault (SaysFile file.now error) result }
    {
        match String::from_str(alloc, file) {
            Ok(path) => Early {
                fault,
                reason: Reason::File(path, Unreadable::of(error)),
            },
            Err(refused) => Early::from(refused),
        }
    }

    /// The end of a call whose file gives no settings: E96, or E01.
    pub fn no_settings(alloc: Global, file: &str, why: BadSetting) -> Early
        ensures { EndsBy Fault.BadSettings (SaysSettings file.now why) result }
    {
        match String::from_str(alloc, file) {
            Ok(path) => Early {
                fault: Fault::BadSettings,
                reason: Reason::Settings(path, why),
            },
            Err(refused) => Early::from(refused),
        }
    }

    /// The end of a call whose store isn't opened: E80, or E01.
    pub fn unopened(alloc: Global, file: &str, why: Unopened) -> Early
        ensures { EndsBy Fault.StoreRefused (SaysStore file.now why) result }
    {
        match String::from_str(alloc, file) {
            Ok(path) => Early {
                fault: Fault::StoreRefused,
                reason: Reason::Store(path, why),
            },
            Err(refused) => Early::from(refused),
        }
    }

    /// The end of words that are no call, the first of them the program's own: E97, and how the call that was meant is made.
    pub fn misused(words: &[String]) -> Early
        ensures fault { result.fault ≡ Fault.BadUsage }
        ensures reason { result.reason ≡ Reason.Usage (meant_by (map string_bytes words.now)) }
    {
        Early {
            fault: Fault::BadUsage,
            reason: Reason::Usage(meant(words)),
        }
    }
}
