//! A disk whose calls have numbers, some of which are refused.
ghost use Rattle.std.specs.Prelude.{◌≡◌, ◌+◌, ◌/◌, ◌<◌, ◌&&◌, not, length, take, drop, IsTrue, IsSome, Some};
ghost use Rattle.sqlite_disk.specs.Digest.{digest};
ghost use Rattle.flow_crash.specs.DiskCalls as disk;
ghost use Rattle.flow_crash.specs.Carried as carried;
ghost use Rattle.flow_crash.specs.declared.calls.Part.TheVariants as parts;

use crate::calls::{Part, refused};
use crate::rule::Rule;
use sqlite_disk::{Disk, Tally};
use std::io;

/// Passes calls on to a disk, but for those that its rule refuses.
#[derive(Drop)]
pub struct Numbered<D: Disk, R: Rule> {
    inner: D,
    rule: R,
    sync_refused: bool,
}

impl<D: Disk, R: Rule + Drop> Numbered<D, R> {
    ghost use Rattle.flow_crash.specs.Numbered.{inner_of, rule_of, IsFresh};

    /// Over a disk, by a rule.
    pub fn new(inner: D, rule: R) -> Numbered<D, R>
        ensures inner { inner_of result ≡ inner }
        ensures rule { rule_of result ≡ rule }
        ensures fresh { IsFresh result }
    {
        Numbered {
            inner,
            rule,
            sync_refused: false,
        }
    }

    /// The disk, as the calls have left it.
    pub fn into_inner(self) -> D
        ensures { result ≡ inner_of self }
    {
        let Numbered {
            inner,
            rule: _,
            sync_refused: _,
        } = self;
        inner
    }

    /// The number of the last call of this file, 0 before the first.
    pub fn last(&self) -> u64
        ensures { result ≡ R.Rule.last_of (rule_of self.now) }
    {
        self.rule.last()
    }

    /// How many calls of this file were refused. It stops at the top of its type.
    pub fn refusals(&self) -> u64
        ensures { result ≡ R.Rule.refusals_of (rule_of self.now) }
    {
        self.rule.refusals()
    }
}

// The clause `disk` of each call is what the trait says of it, so a call that isn't passed on is refused by the proof; the others are
// what the trait leaves open.
impl<D: Disk, R: Rule> Disk for Numbered<D, R> {
    ghost use Rattle.flow_crash.specs.Numbered.{inner_of, fate_of, IsNumbered};

    ghost seen = { λ f. D.Disk.seen f.inner };

    ghost may_leave = { λ f. D.Disk.may_leave f.inner };

    ghost is_usable = { λ f. D.Disk.is_usable f.inner && not f.sync_refused };

    // A refused call is counted as it is asked, so it can't be answered Ok, and no other call is refused but by the disk.
    ghost faults = { λ f. D.Disk.faults f.inner + R.Rule.refusals_of f.rule };

    ghost tally_of = { λ f. D.Disk.tally_of f.inner };

    ghost is_rotten = { λ f. D.Disk.is_rotten f.inner };

    ghost key_of = { λ f. D.Disk.key_of f.inner };

    // Once it has stopped each call is refused and changes nothing.
    ghost is_frozen = { λ f. R.Rule.has_stopped f.rule };

    ghost is_clean = { λ f. D.Disk.is_clean f.inner };

    ghost is_fair = { λ f. D.Disk.is_fair f.inner };

    ghost fair_if_clean = { λ f. D.Disk.fair_if_clean f.inner };

    ghost seen_may_stay = { λ f. D.Disk.seen_may_stay f.inner };

    ghost is_mixing = { λ f. D.Disk.is_mixing f.inner && not R.Rule.is_tearing };

    fn mixes(&self) -> bool {
        self.inner.mixes() && !R::tears()
    }

    fn key(&self) -> u64 {
        self.inner.key()
    }

    fn tally(&self) -> Tally {
        self.inner.tally()
    }

    fn may_be_used(&self) -> bool {
        self.inner.may_be_used() && !self.sync_refused
    }

    fn len(&mut self) -> io::Result<usize>
        requires { IsTrue (⟦<Numbered<D, R> as Disk>⟧.is_usable self.old) }
        ensures disk { disk.Measures ⟦<Numbered<D, R> as Disk>⟧ self.old self.new result }
        ensures numbered { IsNumbered R.Rule self.old self.new result }
        ensures unread { IsSome (fate_of R.Rule self.old self.new) → inner_of self.new ≡ inner_of self.old }
    {
        match self.rule.ask() {
            None => self.inner.len(),
            Some(_) => refused(),
        }
    }

    fn read_at(&mut self, at: usize, buf: &mut [u8]) -> io::Result<()>
        requires { IsTrue (⟦<Numbered<D, R> as Disk>⟧.is_usable self.old) }
        ensures disk { disk.Reads ⟦<Numbered<D, R> as Disk>⟧ self.old self.new at buf.old buf.new result }
        ensures numbered { IsNumbered R.Rule self.old self.new result }
        ensures unread { IsSome (fate_of R.Rule self.old self.new) → inner_of self.new ≡ inner_of self.old }
    {
        match self.rule.ask() {
            None => self.inner.read_at(at, buf),
            Some(_) => refused(),
        }
    }

    fn read_checked(&mut self, key: u64, want: u64, at: usize, buf: &mut [u8]) -> io::Result<()>
        requires usable { IsTrue (⟦<Numbered<D, R> as Disk>⟧.is_usable self.old) }
        requires some { 0 < length buf.old }
        requires want { IsTrue (D.Disk.is_clean (inner_of self.old)) → want ≡ digest key (take (length buf.old) (drop at (D.Disk.seen (inner_of self.old)))) }
        ensures disk { disk.Tests ⟦<Numbered<D, R> as Disk>⟧ self.old self.new key want at buf.old buf.new result }
        ensures numbered { IsNumbered R.Rule self.old self.new result }
        ensures unread { IsSome (fate_of R.Rule self.old self.new) → inner_of self.new ≡ inner_of self.old }
    {
        match self.rule.ask() {
            None => self.inner.read_checked(key, want, at, buf),
            Some(_) => refused(),
        }
    }

    fn write_at(&mut self, at: usize, bytes: &[u8]) -> io::Result<()>
        requires { IsTrue (⟦<Numbered<D, R> as Disk>⟧.is_usable self.old) }
        ensures disk { disk.Writes ⟦<Numbered<D, R> as Disk>⟧ self.old self.new at bytes.now result }
        ensures numbered { IsNumbered R.Rule self.old self.new result }
        ensures half { fate_of R.Rule self.old self.new ≡ Some parts.Half → carried.Writes D.Disk at (take (length bytes.now / 2) bytes.now) (inner_of self.old) (inner_of self.new) }
        ensures whole { fate_of R.Rule self.old self.new ≡ Some parts.After → carried.Writes D.Disk at bytes.now (inner_of self.old) (inner_of self.new) }
    {
        match self.rule.ask() {
            None => self.inner.write_at(at, bytes),
            Some(Part::Before) => refused(),
            Some(Part::Half) => {
                self.inner.write_at(at, &bytes[..bytes.len() / 2])?;
                refused()
            }
            Some(Part::After) => {
                self.inner.write_at(at, bytes)?;
                refused()
            }
        }
    }

    fn set_len(&mut self, len: usize) -> io::Result<()>
        requires { IsTrue (⟦<Numbered<D, R> as Disk>⟧.is_usable self.old) }
        ensures disk { disk.Resizes ⟦<Numbered<D, R> as Disk>⟧ self.old self.new len result }
        ensures numbered { IsNumbered R.Rule self.old self.new result }
        ensures half { fate_of R.Rule self.old self.new ≡ Some parts.Half → inner_of self.new ≡ inner_of self.old }
        ensures whole { fate_of R.Rule self.old self.new ≡ Some parts.After → carried.Resizes D.Disk len (inner_of self.old) (inner_of self.new) }
    {
        match self.rule.ask() {
            None => self.inner.set_len(len),
            Some(Part::After) => {
                self.inner.set_len(len)?;
                refused()
            }
            Some(_) => refused(),
        }
    }

    fn sync(&mut self) -> io::Result<()>
        requires { IsTrue (⟦<Numbered<D, R> as Disk>⟧.is_usable self.old) }
        ensures disk { disk.Syncs ⟦<Numbered<D, R> as Disk>⟧ self.old self.new result }
        ensures numbered { IsNumbered R.Rule self.old self.new result }
        ensures half { fate_of R.Rule self.old self.new ≡ Some parts.Half → inner_of self.new ≡ inner_of self.old }
        ensures whole { fate_of R.Rule self.old self.new ≡ Some parts.After → carried.Syncs D.Disk (inner_of self.old) (inner_of self.new) }
    {
        match self.rule.ask() {
            None => self.inner.sync(),
            Some(Part::After) => {
                self.inner.sync()?;
                self.sync_refused = true;
                refused()
            }
            Some(_) => {
                self.sync_refused = true;
                refused()
            }
        }
    }
}
