ghost use Rattle.std.specs.Prelude.{◌≡◌, ◌≤◌, ◌↔◌, ◌⊎◌, IsSome, IfSome, IfOk, IfErr, None, Some};
ghost use Rattle.toml.specs.Errors.{IsBlank};
ghost use Rattle.toml.specs.View.{view, table_view};
ghost use Rattle.flow_settings.specs.Allowed.{Chosen, chosen, IsInRange, whole_to, setting, is_known, knows_all, settings_of, settings_in, is_within};

use flow_base::fault::Fault;
use flow_base::memory::NoMemory;
use std::alloc::Global;
use std::marker::Model;
use toml::{Table, Value};

/// The most commands of a batch.
pub const MOST_BATCH: usize = 64;

/// The most workers.
pub const MOST_WORKERS: usize = 16;

/// The most positions of runs that are kept in memory.
pub const MOST_CACHE: usize = 4096;

/// How an engine runs: how many commands it takes into one batch at most, how many threads run activities, and how many
/// positions of runs it keeps in memory.
#[derive(Clone, Copy, Debug, PartialEq, Eq)]
pub struct Settings {
    batch: usize,
    workers: usize,
    cache: usize,
}

impl Model for Settings {
    ghost use Rattle.flow_settings.specs.Allowed.{Chosen, chosen, IsInRange};

    ghost Value = { Chosen };

    ghost view = { λ s. chosen s.batch s.workers s.cache };

    ghost invariant = { λ s. IsInRange (chosen s.batch s.workers s.cache) };

    ghost inverse = { λ c. record { batch = c.batch; workers = c.workers; cache = c.cache } };
}

impl Settings {
    /// These settings: 1 to [`MOST_BATCH`] commands a batch, 1 to [`MOST_WORKERS`] workers and 1 to [`MOST_CACHE`]
    /// positions.
    pub fn new(batch: usize, workers: usize, cache: usize) -> Option<Settings>
        ensures valid { IsSome result ↔ IsInRange (chosen batch workers cache) }
        ensures value { IfSome result (λ s. s ≡ chosen batch workers cache) }
    {
        if is_count(batch, MOST_BATCH)
            && is_count(workers, MOST_WORKERS)
            && is_count(cache, MOST_CACHE)
        {
            Some(Settings {
                batch,
                workers,
                cache,
            })
        } else {
            None
        }
    }

    /// What holds where nothing is said: batches of 16, 4 workers, 256 positions.
    pub fn usual() -> Settings
        ensures { result ≡ chosen 16 4 256 }
    {
        Settings {
            batch: 16,
            workers: 4,
            cache: 256,
        }
    }

    /// The settings that a text gives: a TOML table with no keys but `batch`, `workers` and `cache`, which are whole numbers
    /// in the ranges of [`Settings::new`]. A missing one is as in [`Settings::usual`].
    ///
    /// # Failure
    /// E96 where the text is another one, and E01.
    pub fn read(alloc: Global, text: &str) -> Result<Settings, Fault>
        ensures ok { IfOk result (λ s. settings_in text.now ≡ Some s) }
        ensures bad { IfErr result (λ e. e ≡ Fault.BadSettings → settings_in text.now ≡ None) }
        ensures memory { IfErr result (λ e. e ≡ Fault.NoMemory _ → ¬ IsBlank text.now) }
        ensures among { IfErr result (λ e. (e ≡ Fault.NoMemory _) ⊎ (e ≡ Fault.BadSettings)) }
    {
        match toml::table_from_str(alloc, text) {
            Ok(table) => match settings_from(&table) {
                Some(settings) => Ok(settings),
                None => Err(Fault::BadSettings),
            },
            Err(error) => {
                if error.is_memory() {
                    Err(Fault::NoMemory(NoMemory::told()))
                } else {
                    Err(Fault::BadSettings)
                }
            }
        }
    }

    /// How many commands a batch has at most.
    pub fn batch(self) -> usize
        ensures value { result ≡ self.batch }
        ensures first { 1 ≤ result }
        ensures last { result ≤ MOST_BATCH }
    {
        self.batch
    }

    /// How many threads run activities.
    pub fn workers(self) -> usize
        ensures value { result ≡ self.workers }
        ensures first { 1 ≤ result }
        ensures last { result ≤ MOST_WORKERS }
    {
        self.workers
    }

    /// How many positions of runs are kept in memory.
    pub fn cache(self) -> usize
        ensures value { result ≡ self.cache }
        ensures first { 1 ≤ result }
        ensures last { result ≤ MOST_CACHE }
    {
        self.cache
    }
}

// Whether it is a count of 1 to so many.
fn is_count(number: usize, most: usize) -> bool
    ensures { result ≡ is_within most number }
{
    1 <= number && number <= most
}

// The settings of a table.
fn settings_from(table: &Table) -> Option<Settings>
    ensures { result ≡ settings_of (table_view table.now) }
{
    if !has_known_keys(table) {
        return None;
    }
    let batch = number_at(table, "batch", MOST_BATCH, 16)?;
    let workers = number_at(table, "workers", MOST_WORKERS, 4)?;
    let cache = number_at(table, "cache", MOST_CACHE, 256)?;
    Settings::new(batch, workers, cache)
}

// Whether each key is one that settings have.
fn has_known_keys(table: &Table) -> bool
    ensures { result ≡ knows_all (table_view table.now) }
{
    'keys: for (key, _value) in table.iter() {
        if !is_key(key.as_str()) {
            return false;
        }
    }
    true
}

fn is_key(key: &str) -> bool
    ensures { result ≡ is_known key.now }
{
    key == "batch" || key == "workers" || key == "cache"
}

// The whole number at a key, from 1 to the most; the usual one where the key is missing.
fn number_at(table: &Table, key: &str, most: usize, usual: usize) -> Option<usize>
    ensures { result ≡ setting key.now most usual (table_view table.now) }
{
    match table.get(key) {
        Some(value) => whole(value, most),
        None => Some(usual),
    }
}

// The whole number from 1 to the most.
fn whole(value: &Value, most: usize) -> Option<usize>
    ensures { result ≡ whole_to most (view value.now) }
{
    let number = value.as_integer()?;
    let number = usize::try_from(number).ok()?;
    if is_count(number, most) {
        Some(number)
    } else {
        None
    }
}
