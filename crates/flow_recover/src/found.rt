//! The positions that are found: of all of them the first are kept, as many as are wanted, and the list of all is for contracts alone.
ghost use Rattle.std.specs.Prelude.{◌≡◌, ◌<◌, ◌≤◌, ◌++◌, ◌∷◌, [], List, IfErr, IfOk, length, take, true};
ghost use Rattle.flow_recover.specs.Finds.{AreFirst};
ghost use Rattle.flow_recover.specs.declared.positions.Position.{Position as APosition};

use crate::positions::Position;
use flow_base::fault::Fault;
use flow_base::memory::NoMemory;
use std::alloc::Global;
use std::marker::Model;
use unseen::{Listed, Makes};

/// As how many are to be kept: all of them, since memory has no room for so many.
pub const ALL: usize = 18_446_744_073_709_551_615;

/// The positions of open runs, in the order of runs. A contract sees all of them, and the first, which are kept: as many as are wanted, or
/// as there is memory for. Each other one is let go of as soon as it is found.
#[derive(Drop)]
pub struct Found {
    first: Vec<Position>,
    /// So many are kept at most.
    most: usize,
    /// Whether the first are all of them.
    whole: bool,
    all: Listed<Position>,
}

impl Model for Found {
    ghost use Rattle.std.specs.Prelude.{◌≤◌, length};
    ghost use Rattle.flow_recover.specs.Finds.{AreFirst, Finds, finds_code};

    ghost Value = { Finds };

    ghost coded = { finds_code };

    ghost view = { λ f. record { items = f.all; first = f.first.items } };

    ghost invariant = { λ f. AreFirst f.first.items f.whole f.all × (length f.first.items ≤ f.most) };
}

// None.
struct Nothing;

impl Makes<(), Position> for Nothing {
    ghost use Rattle.std.specs.Prelude.{[]};

    ghost list = { λ _. [] };
}

// The list, and behind it this one.
struct Behind;

impl Makes<(Listed<Position>, &Position), Position> for Behind {
    ghost use Rattle.std.specs.Prelude.{[], ◌∷◌, ◌++◌};

    ghost list = { λ p. p.0 ++ p.1.now ∷ [] };
}

fn longer(list: &Listed<Position>, position: &Position) -> Listed<Position>
    ensures { result ≡ list.now ++ position.now ∷ [] }
{
    Listed::of::<(Listed<Position>, &Position), Behind>(&(list.again(), position))
}

/// Puts one more behind the first, as long as these are all, and fewer than are wanted. Whether it stands there.
fn keep_first(first: &mut Vec<Position>, most: usize, whole: bool, position: Position) -> bool
    ensures are { (all : List APosition) → AreFirst first.old.items whole all → AreFirst first.new.items result (all ++ position ∷ []) }
    ensures few { length first.old.items ≤ most → length first.new.items ≤ most }
{
    if !whole {
        return false;
    }
    if first.len() >= most {
        return false;
    }
    first.push(position).is_ok()
}

impl Found {
    /// None yet. So many are to be kept.
    pub fn new(alloc: Global, most: usize) -> Found
        ensures { result.items ≡ [] }
    {
        Found {
            first: Vec::new(alloc),
            most,
            whole: true,
            all: Listed::of::<(), Nothing>(&()),
        }
    }

    /// One more behind the others.
    pub fn add(&mut self, position: Position)
        ensures { self.new.items ≡ self.old.items ++ position ∷ [] }
    {
        let all = longer(&self.all, &position);
        self.whole = keep_first(&mut self.first, self.most, self.whole, position);
        self.all = all;
    }

    /// Whether all are kept, or at least so many.
    pub fn has(&self, wanted: usize) -> bool
        ensures { result ≡ true → length self.now.first < wanted → self.now.first ≡ self.now.items }
    {
        self.whole || self.first.len() >= wanted
    }

    /// The first of them.
    pub fn first(&self) -> &[Position]
        ensures kept { result.now ≡ self.now.first }
        ensures first { result.now ≡ take (length result.now) self.now.items }
    {
        self.first.as_slice()
    }

    /// All of them, for contracts alone.
    pub fn all(&self) -> Listed<Position>
        ensures { result ≡ self.now.items }
    {
        self.all.again()
    }

    /// The first of them, taken out.
    pub fn into_first(self) -> Vec<Position>
        ensures { result.items ≡ self.first }
    {
        let Found {
            first,
            most: _,
            whole: _,
            all: _,
        } = self;
        first
    }
}

/// How many these are: fewer than that.
fn count(list: &[Position]) -> usize
    ensures same { result ≡ length list.now }
    ensures few { result < ALL }
{
    list.len()
}

/// All of them, where they were to be kept.
pub fn all_of(found: Found) -> Vec<Position>
    requires { length found.first < ALL → found.first ≡ found.items }
    ensures { result.items ≡ found.items }
{
    let list = found.into_first();
    let _count = count(list.as_slice());
    list
}

/// All of them, where they were to be kept.
///
/// # Failure
/// E01 if there was no memory for one of them.
pub(crate) fn listed(found: Found) -> Result<Vec<Position>, Fault>
    ensures all { IfOk result (λ qs. qs.items ≡ found.items) }
    ensures memory { IfErr result (λ f. f ≡ Fault.NoMemory _) }
{
    if !found.has(ALL) {
        return Err(Fault::NoMemory(NoMemory::told()));
    }
    Ok(all_of(found))
}
