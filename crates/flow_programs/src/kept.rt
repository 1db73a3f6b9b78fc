//! Programs that were read, kept by their texts.
ghost use Rattle.std.specs.Prelude.{◌≡◌, ◌+◌, ◌-◌, ◌≤◌, ◌<◌, ◌∷◌, [], length, take, remove, slice_get, vec_len, vec_capacity, IfOk, IfErr, IfSome, OnOk, OnErr, MatchOption, MatchResult, Ok, Err, Some, None, true, false};
ghost use Rattle.flow_model.specs.Checked.{shown_checked};
ghost use Rattle.flow_programs.specs.Keeping.{IsKeptAnew, IsPlace, fitting, is_kept, weight, without};

use crate::known::{ParsedText, weight_of};
use crate::programs::Programs;
use flow_base::command::TextFault;
use flow_base::text::RawText;
use flow_model::checked::Checked;
use flow_model::texts::Texts;
use std::alloc::{AllocError, Global};
use std::marker::Model;
use std::sync::Arc;

/// How much is kept at most, in bytes of text.
pub const LIMIT: usize = 1 << 20;

/// Keeps the programs of texts, of those that were asked for last.
#[derive(Drop)]
pub struct Kept<T: Texts> {
    texts: T,
    /// The one that was asked for last comes first.
    programs: Vec<ParsedText<T>>,
}

impl<T: Texts> Model for Kept<T> {
    ghost use Rattle.std.specs.Prelude.{List, ◌≤◌};
    ghost use Rattle.flow_base.specs.Syntax.{Bytes};
    ghost use Rattle.flow_programs.specs.Keeping.{total};

    ghost Value = { List Bytes };

    ghost view = { λ k. k.programs.items };

    ghost invariant = { λ k. total k.programs.items ≤ 1048576 };
}

/// The first place of a text among these, if it is there.
fn place<T: Texts>(programs: &[ParsedText<T>], text: &RawText) -> Option<usize>
    ensures none { result ≡ None → is_kept text.now programs.now ≡ false }
    ensures some { IfSome result (λ i. IsPlace text.now programs.now i) }
{
    for i in 0..programs.len() {
        if programs[i].is_of(text) {
            return Some(i);
        }
    }
    None
}

/// This comes first, in a list that has room for it.
fn put_first<T: Texts>(programs: &mut Vec<ParsedText<T>>, known: ParsedText<T>)
    requires { vec_len programs.old < vec_capacity programs.old }
    ensures { programs.new.items ≡ known ∷ programs.old.items }
{
    // Room is there, so that this is never refused.
    let _put = programs.insert(0, known);
}

/// What stands at a place comes first.
fn bring_forward<T: Texts>(programs: &mut Vec<ParsedText<T>>, text: &RawText, i: usize)
    requires within { i < length programs.old.items }
    requires at { slice_get programs.old.items i ≡ Some text.now }
    ensures { programs.new.items ≡ text.now ∷ remove programs.old.items i }
{
    let known = programs.remove(i);
    put_first(programs, known);
}

/// How many of the first of these leave so much room.
fn count_of_fitting<T: Texts>(programs: &[ParsedText<T>], room: usize) -> usize
    ensures { take result programs.now ≡ fitting room programs.now }
{
    let mut left = room;
    for i in 0..programs.len() {
        let weight = programs[i].weight();
        if weight > left {
            return i;
        }
        left -= weight;
    }
    programs.len()
}

impl<T: Texts> Kept<T> {
    /// Nothing is kept yet of what these read.
    pub fn new(alloc: Global, texts: T) -> Kept<T>
        ensures { result ≡ [] }
    {
        Kept {
            texts,
            programs: Vec::new(alloc),
        }
    }

    /// The program of a text, if it is kept. It is then the one that was asked for last.
    fn take(&mut self, text: &RawText) -> Result<Option<Arc<Checked>>, AllocError>
        ensures program { IfOk result (λ o. MatchOption o (is_kept text.now self.old ≡ false)
            (λ c. T.meaning text.now ≡ Ok (shown_checked c.value))) }
        ensures there { IfOk result (λ o. IfSome o (λ _. is_kept text.now self.old ≡ true)) }
        ensures first { IfOk result (λ o. IfSome o (λ _. self.new ≡ text.now ∷ without text.now self.old)) }
        ensures none { IfOk result (λ o. o ≡ None → self.new ≡ self.old) }
        ensures refused { OnErr result (self.new ≡ self.old) }
    {
        match place(&self.programs, text) {
            Some(i) => {
                let program = self.programs[i].share()?;
                bring_forward(&mut self.programs, text, i);
                Ok(Some(program))
            }
            None => Ok(None),
        }
    }

    /// Keeps the program of a text, and forgets those that were asked for before and don't fit beside it any more.
    ///
    /// # Failure
    /// E01; then all is as it was.
    fn keep(
        &mut self,
        alloc: Global,
        text: &RawText,
        program: &Arc<Checked>,
    ) -> Result<(), AllocError>
        requires { T.meaning text.now ≡ Ok (shown_checked program.now.value) }
        ensures kept { OnOk result (weight text.now ≤ LIMIT → self.new ≡ text.now ∷ fitting (LIMIT - weight text.now) self.old) }
        ensures long { OnOk result (LIMIT < weight text.now → self.new ≡ self.old) }
        ensures refused { OnErr result (self.new ≡ self.old) }
    {
        let weight = weight_of(text);
        if weight > LIMIT {
            return Ok(());
        }
        let known = ParsedText::new(alloc, text, program)?;
        self.programs.reserve(1)?;
        let count = count_of_fitting(&self.programs, LIMIT - weight);
        self.programs.truncate(count);
        put_first(&mut self.programs, known);
        Ok(())
    }

    /// The program of a text, or its first fault: what is kept isn't read again.
    ///
    /// # Failure
    /// E01; then all is as it was. Where there is memory for the program and none to keep it, it is answered, and nothing else is
    /// forgotten.
    pub fn read(
        &mut self,
        alloc: Global,
        text: &RawText,
    ) -> Result<Result<Arc<Checked>, TextFault>, AllocError>
        ensures means { IfOk result (λ r. MatchResult r (λ c. T.meaning text.now ≡ Ok (shown_checked c.value))
            (λ fault. T.meaning text.now ≡ Err fault)) }
        // What was kept comes first, and nothing is forgotten for it.
        ensures kept { is_kept text.now self.old ≡ true → OnOk result (self.new ≡ text.now ∷ without text.now self.old) }
        ensures anew { is_kept text.now self.old ≡ false → OnOk result (IsKeptAnew text.now LIMIT self.old self.new) }
        ensures refused { OnErr result (self.new ≡ self.old) }
    {
        if let Some(program) = self.take(text)? {
            return Ok(Ok(program));
        }
        match self.texts.read(alloc, text)? {
            Ok(program) => {
                let program = Arc::new(alloc, program)?;
                // Where there is no memory to keep it, it is read again the next time.
                let _kept = self.keep(alloc, text, &program);
                Ok(Ok(program))
            }
            Err(fault) => Ok(Err(fault)),
        }
    }
}

impl<T: Texts> Programs for Kept<T> {
    ghost meaning = { T.meaning };

    fn program(
        &mut self,
        alloc: Global,
        text: &RawText,
    ) -> Result<Result<Arc<Checked>, TextFault>, AllocError> {
        self.read(alloc, text)
    }
}
