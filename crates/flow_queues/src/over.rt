//! Which runs are over, as stretches of their numbers.
ghost use Rattle.std.specs.Prelude.{◌≡◌, ◌&&◌, ◌<◌, ◌+◌, ◌^◌, ◌++◌, ◌∷◌, [], ℕ, List, OnErr, OnOk, cond, not, true, false};
ghost use Rattle.std.specs.BTreeSet.{contains};
ghost use Rattle.std.specs.Ordering.{nat_cmp};
ghost use Rattle.flow_queues.specs.Over.{AreStretches, IsNextIn, is_over, is_same};

use flow_base::number::RunId;
use std::alloc::{AllocError, Global};
use std::collections::BTreeSet;
use std::marker::Model;
use unseen::{Listed, Makes};

/// Runs that are over. It only grows. What it keeps is where each stretch of them begins and where it ends, so of runs that ended one
/// after the other two numbers, however many they are. To a contract it is the list of their numbers.
#[derive(Drop)]
pub struct Over {
    /// The first run of each stretch.
    firsts: BTreeSet<u64>,
    /// The number after the last run of each stretch.
    ends: BTreeSet<u64>,
    /// All of them, for contracts alone.
    runs: Listed<RunId>,
}

impl Model for Over {
    ghost use Rattle.std.specs.Prelude.{ℕ, List};
    ghost use Rattle.std.specs.Coded.{coded_list, coded_ℕ};
    ghost use Rattle.flow_queues.specs.Over.{AreStretches};

    ghost Value = { List ℕ };

    ghost coded = { coded_list coded_ℕ };

    ghost view = { λ o. o.runs };

    ghost invariant = { λ o. AreStretches o.firsts o.ends o.runs };
}

// No run.
struct Empty;

impl Makes<(), RunId> for Empty {
    ghost use Rattle.std.specs.Prelude.{[]};

    ghost list = { λ _. [] };
}

// The list, and one run more.
struct OneMore;

impl Makes<(Listed<RunId>, RunId), RunId> for OneMore {
    ghost use Rattle.std.specs.Prelude.{[], ◌∷◌, ◌++◌};

    ghost list = { λ p. p.0 ++ p.1 ∷ [] };
}

fn longer(list: &Listed<RunId>, run: RunId) -> Listed<RunId>
    ensures { result ≡ list.now ++ run ∷ [] }
{
    Listed::of::<(Listed<RunId>, RunId), OneMore>(&(list.again(), run))
}

/// The first number of a set after another one.
fn next(set: &BTreeSet<u64>, number: u64) -> Option<u64>
    requires { number < 2 ^ 63 }
    ensures { IsNextIn set.now number result }
{
    let mut later = set.range(number + 1..);
    let Some(first) = later.next() else {
        return None;
    };
    Some(*first)
}

/// Whether a run lies in a stretch: whether the next stretch ends before another one begins.
fn is_within(firsts: &BTreeSet<u64>, ends: &BTreeSet<u64>, run: u64) -> bool
    requires { run < 2 ^ 63 }
    ensures { (runs : List ℕ) → AreStretches firsts.now ends.now runs → result ≡ is_over runs run }
{
    let Some(end) = next(ends, run) else {
        return false;
    };
    let Some(first) = next(firsts, run) else {
        return true;
    };
    end < first
}

/// Puts a number into a set, if that is asked for.
fn put_if(asked: bool, set: &mut BTreeSet<u64>, number: u64) -> Result<(), AllocError>
    ensures put { OnOk result ((q : ℕ) → contains nat_cmp set.new q ≡ cond (asked && is_same number q) true (contains nat_cmp set.old q)) }
    ensures refused { OnErr result ((q : ℕ) → contains nat_cmp set.new q ≡ contains nat_cmp set.old q) }
{
    if !asked {
        return Ok(());
    }
    match set.insert(number) {
        Ok(_new) => Ok(()),
        Err(refused) => Err(AllocError::from(refused)),
    }
}

/// Takes a number out of a set, if that is asked for.
fn take_if(asked: bool, set: &mut BTreeSet<u64>, number: u64)
    ensures { (q : ℕ) → contains nat_cmp set.new q ≡ cond (asked && is_same number q) false (contains nat_cmp set.old q) }
{
    if asked {
        set.remove(&number);
    }
}

/// Whether a set doesn't have a number.
fn lacks(set: &BTreeSet<u64>, number: u64) -> bool
    ensures { result ≡ not (contains nat_cmp set.now number) }
{
    !set.contains(&number)
}

/// If the run joins the stretch before it, that one doesn't end there any more, and one after it doesn't begin there.
fn merge(begins: bool, closes: bool, firsts: &mut BTreeSet<u64>, ends: &mut BTreeSet<u64>, run: u64)
    requires { run < 2 ^ 63 }
    ensures ends { (q : ℕ) → contains nat_cmp ends.new q ≡ cond (not begins && is_same run q) false (contains nat_cmp ends.old q) }
    ensures firsts { (q : ℕ) → contains nat_cmp firsts.new q ≡ cond (not closes && is_same (run + 1) q) false (contains nat_cmp firsts.old q) }
{
    take_if(!begins, ends, run);
    take_if(!closes, firsts, run + 1);
}

/// A run that lies in no stretch comes to those beside it, or is one of its own. What needs memory is done first, so that it can be taken
/// back.
fn join(firsts: &mut BTreeSet<u64>, ends: &mut BTreeSet<u64>, run: u64) -> Result<(), AllocError>
    requires { run < 2 ^ 63 }
    ensures joined { OnOk result ((runs : List ℕ) → AreStretches firsts.old ends.old runs → is_over runs run ≡ false
        → AreStretches firsts.new ends.new (runs ++ run ∷ [])) }
    ensures refused { OnErr result ((runs : List ℕ) → AreStretches firsts.old ends.old runs → is_over runs run ≡ false
        → AreStretches firsts.new ends.new runs) }
{
    let begins = lacks(ends, run);
    let closes = lacks(firsts, run + 1);
    if let Err(refused) = put_if(begins, firsts, run) {
        return Err(refused);
    }
    if let Err(refused) = put_if(closes, ends, run + 1) {
        take_if(begins, firsts, run);
        return Err(refused);
    }
    merge(begins, closes, firsts, ends, run);
    Ok(())
}

/// A run lies in a stretch from now on. If memory for it is refused, the stretches are as before.
fn cover(firsts: &mut BTreeSet<u64>, ends: &mut BTreeSet<u64>, run: u64) -> Result<(), AllocError>
    requires { run < 2 ^ 63 }
    ensures covered { OnOk result ((runs : List ℕ) → AreStretches firsts.old ends.old runs
        → AreStretches firsts.new ends.new (runs ++ run ∷ [])) }
    ensures refused { OnErr result ((runs : List ℕ) → AreStretches firsts.old ends.old runs → AreStretches firsts.new ends.new runs) }
{
    if is_within(firsts, ends, run) {
        return Ok(());
    }
    if let Err(refused) = join(firsts, ends, run) {
        return Err(refused);
    }
    Ok(())
}

impl Over {
    /// No run.
    pub fn new(alloc: Global) -> Over
        ensures { result ≡ [] }
    {
        Over {
            firsts: BTreeSet::new(alloc),
            ends: BTreeSet::new(alloc),
            runs: Listed::of::<(), Empty>(&()),
        }
    }

    /// Whether a run is over.
    pub fn contains(&self, run: RunId) -> bool
        ensures { result ≡ is_over self.now run }
    {
        is_within(&self.firsts, &self.ends, run.get())
    }

    /// One run more is over. If memory for it is refused, all is as before.
    pub fn add(&mut self, run: RunId) -> Result<(), AllocError>
        ensures added { OnOk result (self.new ≡ self.old ++ run ∷ []) }
        ensures refused { OnErr result (self.new ≡ self.old) }
    {
        if let Err(refused) = cover(&mut self.firsts, &mut self.ends, run.get()) {
            return Err(refused);
        }
        self.runs = longer(&self.runs, run);
        Ok(())
    }
}
