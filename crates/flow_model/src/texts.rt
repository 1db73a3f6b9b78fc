ghost use Rattle.std.specs.Prelude.{◌≡◌, IfOk, MatchResult, Result, Ok, Err};
ghost use Rattle.flow_base.specs.Syntax.{Bytes, Program};
ghost use Rattle.flow_base.specs.declared.command.TextFault.{TextFault as AFault};
ghost use Rattle.flow_model.specs.Checked.{shown_checked};

use crate::checked::Checked;
use flow_base::command::TextFault;
use flow_base::text::RawText;
use std::alloc::{AllocError, Global};

/// What reads texts as programs.
pub trait Texts {
    /// Which program a text is, or the first fault for which it is none.
    ghost meaning: { Bytes → Result Program AFault };

    /// The program of a text, or its first fault.
    fn read(&self, alloc: Global, text: &RawText) -> Result<Result<Checked, TextFault>, AllocError>
        ensures { IfOk result (λ r. MatchResult r (λ c. meaning text.now ≡ Ok (shown_checked c)) (λ fault. meaning text.now ≡ Err fault)) };
}
