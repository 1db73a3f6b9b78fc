ghost use Rattle.std.specs.Prelude.{◌≡◌, ◌+◌, IfOk, IsTrue, ◌↔◌, bytes_eq, length, Ok};
ghost use Rattle.flow_model.specs.Checked.{shown_checked};

use flow_base::text::RawText;
use flow_model::checked::Checked;
use flow_model::texts::Texts;
use std::alloc::{AllocError, Global};
use std::marker::{Model, PhantomData};
use std::sync::Arc;

/// What a text counts for beside its bytes, so that short texts are at most so many that to look through them costs little.
pub const ENTRY: usize = 1024;

/// A text with the program that it is.
#[derive(Drop)]
pub(crate) struct ParsedText<T: Texts> {
    text: RawText,
    program: Arc<Checked>,
    /// By whose reading.
    by: PhantomData<T>,
}

impl<T: Texts> Model for ParsedText<T> {
    ghost use Rattle.std.specs.Prelude.{◌≡◌, Ok};
    ghost use Rattle.flow_base.specs.Syntax.{Bytes};
    ghost use Rattle.flow_model.specs.Checked.{shown_checked};

    ghost Value = { Bytes };

    ghost view = { λ k. k.text };

    ghost invariant = { λ k. T.meaning k.text ≡ Ok (shown_checked k.program.value) };
}

impl<T: Texts> ParsedText<T> {
    /// A text with its program; the text is copied, and the program shared.
    pub(crate) fn new(
        alloc: Global,
        text: &RawText,
        program: &Arc<Checked>,
    ) -> Result<ParsedText<T>, AllocError>
        requires { T.meaning text.now ≡ Ok (shown_checked program.now.value) }
        ensures { IfOk result (λ k. k ≡ text.now) }
    {
        let text = text.copy(alloc)?;
        let program = program.clone()?;
        Ok(ParsedText {
            text,
            program,
            by: PhantomData,
        })
    }

    /// Whether it is the program of this text.
    pub(crate) fn is_of(&self, text: &RawText) -> bool
        ensures same { IsTrue result ↔ (self.now ≡ text.now) }
        ensures test { result ≡ bytes_eq self.now text.now }
    {
        self.text.is(text)
    }

    /// The program.
    pub(crate) fn share(&self) -> Result<Arc<Checked>, AllocError>
        ensures { IfOk result (λ c. T.meaning self.now ≡ Ok (shown_checked c.value)) }
    {
        Ok(self.program.clone()?)
    }

    /// What its text counts for.
    pub(crate) fn weight(&self) -> usize
        ensures { result ≡ length self.now + ENTRY }
    {
        weight_of(&self.text)
    }
}

/// What a text counts for.
pub(crate) fn weight_of(text: &RawText) -> usize
    ensures { result ≡ length text.now + ENTRY }
{
    text.as_str().len() + ENTRY
}
