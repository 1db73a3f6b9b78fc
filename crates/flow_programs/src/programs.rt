ghost use Rattle.std.specs.Prelude.{◌≡◌, IfOk, MatchResult, Result, Ok, Err};
ghost use Rattle.flow_base.specs.Syntax.{Bytes, Program};
ghost use Rattle.flow_base.specs.declared.command.TextFault.{TextFault as AFault};
ghost use Rattle.flow_model.specs.Checked.{shown_checked};

use flow_base::command::TextFault;
use flow_base::text::RawText;
use flow_model::checked::Checked;
use std::alloc::{AllocError, Global};
use std::sync::Arc;

/// What knows the programs of texts, and may keep them: whatever it keeps, its answer is what the text means.
pub trait Programs {
    /// Which program a text is, or the first fault for which it is none.
    ghost meaning: { Bytes → Result Program AFault };

    /// The program of a text, shared with whoever else asked for it, or the text's first fault.
    fn program(
        &mut self,
        alloc: Global,
        text: &RawText,
    ) -> Result<Result<Arc<Checked>, TextFault>, AllocError>
        ensures { IfOk result (λ r. MatchResult r (λ c. meaning text.now ≡ Ok (shown_checked c.value))
            (λ fault. meaning text.now ≡ Err fault)) };
}
