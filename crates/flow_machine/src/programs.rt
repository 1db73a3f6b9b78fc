//! The program that a text of a view is.
ghost use Rattle.std.specs.Prelude.{◌≡◌, IfOk, None, Ok, Some};
ghost use Rattle.flow_model.specs.Apply.{program_at, program_if};
ghost use Rattle.flow_model.specs.Checked.{shown_checked};
ghost use Rattle.flow_view.specs.Called.{Called};
ghost use Rattle.flow_view.specs.Reading.{Caused, Reads};

use flow_base::number::TextNo;
use flow_base::text::RawText;
use flow_model::checked::Checked;
use flow_programs::programs::Programs;
use flow_view::fault::ViewFault;
use flow_view::view::View;
use std::alloc::Global;
use std::sync::Arc;

/// The program of a stored text.
///
/// # Failure
/// E80 where it is none.
pub fn stored<P: Programs>(
    alloc: Global,
    programs: &mut P,
    body: &RawText,
) -> Result<Arc<Checked>, ViewFault>
    ensures program { IfOk result (λ p. P.meaning body.now ≡ Ok (shown_checked p.value)) }
    ensures cause { Caused result (program_if (P.meaning body.now) ≡ None) }
{
    match programs.program(alloc, body)? {
        Ok(program) => Ok(program),
        Err(_) => Err(ViewFault::StoreRefused),
    }
}

/// The program of a text of the view.
///
/// # Failure
/// E80 where the text isn't there, or is no program.
pub(crate) fn program_of<V: View, P: Programs>(
    alloc: Global,
    programs: &mut P,
    view: &mut V,
    text: TextNo,
) -> Result<Arc<Checked>, ViewFault>
    ensures reads { IfOk result (λ p. Reads (V.is_sure view.new) (V.book view.old) (V.book view.new) (Some (shown_checked p.value))
        (program_at P.meaning (V.book view.old) text)) }
    ensures called { Called V.View view.old view.new result (program_at P.meaning (V.book view.old) text ≡ None) }
{
    match view.text(text)? {
        Some(body) => stored(alloc, programs, &body),
        None => Err(ViewFault::StoreRefused),
    }
}
