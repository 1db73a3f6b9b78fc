//! What `flow safe` says of two texts.
ghost use Rattle.std.specs.Prelude.{◌≡◌, ◌↔◌, IfOk, IfErr, string_bytes};
ghost use Rattle.flow_model.specs.Checked.{shown_checked};
ghost use Rattle.flow_cli.specs.Telling.{safety_told, Tells};
ghost use Rattle.flow_cli.specs.Safety.{of_difference, safety_marks, safety_of, safety_status, safety_text, MeansWrap};
ghost use Rattle.flow_patch.specs.Difference.{first_difference};

use crate::change::{Broken, read_both};
use crate::place::mark;
use crate::telling::tell;
use flow_base::fault::Fault;
use flow_lines::output::Output;
use flow_model::checked::Checked;
use flow_model::texts::Texts;
use flow_patch::change::safe_change;
use flow_patch::fault::Unsafe;
use std::alloc::{AllocError, Global};

/// Whether the runs of an old text may go on under a new one.
#[derive(Clone, Copy, Debug, PartialEq, Eq)]
pub enum Safety {
    /// They may: the new text wraps the old one.
    Safe,
    /// The new text differs from those that wrap the old one.
    Differs(Unsafe),
    /// One of the texts is no program.
    Broken(Broken),
}

impl Safety {
    /// What is written, without its end: `safe`, or as `E57 at 51`, and `old: E11 at 12`, `new: E10 at 25` for the texts that
    /// are no programs, a line each.
    pub fn lines(self, alloc: Global) -> Result<String, AllocError>
        ensures { IfOk result (λ line. string_bytes line ≡ safety_text self) }
    {
        match self {
            Safety::Safe => String::from_str(alloc, "safe"),
            Safety::Differs(Unsafe { at, code }) => format!(in alloc; "{code} at {at}"),
            Safety::Broken(broken) => broken.lines(alloc),
        }
    }

    /// The place in the new text where it differs, or in each that is no program: the line there and a mark below it.
    pub fn marks(self, alloc: Global, old: &str, new: &str) -> Result<Vec<u8>, AllocError>
        ensures { IfOk result (λ marks. marks.items ≡ safety_marks old.now new.now self) }
    {
        match self {
            Safety::Safe => Ok(Vec::new(alloc)),
            Safety::Differs(difference) => mark(alloc, "new: ", new, difference.at),
            Safety::Broken(broken) => broken.marks(alloc, old, new),
        }
    }

    /// The status that the program ends with.
    pub fn status(self) -> u8
        ensures { result ≡ safety_status self }
    {
        match self {
            Safety::Safe => 0,
            Safety::Differs(_) | Safety::Broken(_) => 1,
        }
    }
}

/// Whether the change from one program to another is safe.
fn compare(old: &Checked, new: &Checked) -> Safety
    ensures { result ≡ of_difference (first_difference (shown_checked old.now) (shown_checked new.now)) }
{
    match safe_change(old, new) {
        Ok(()) => Safety::Safe,
        Err(difference) => Safety::Differs(difference),
    }
}

/// Reads two texts by what reads texts, and tells whether the change from the first to the second is safe.
pub fn compare_texts<T: Texts>(
    alloc: Global,
    texts: &T,
    old: &str,
    new: &str,
) -> Result<Safety, Fault>
    ensures safety { IfOk result (λ s. s ≡ safety_of (T.meaning old.now) (T.meaning new.now)) }
    ensures memory { IfErr result (λ e. e ≡ Fault.NoMemory _) }
{
    match read_both(alloc, texts, old, new)? {
        Ok((old, new)) => Ok(compare(&old, &new)),
        Err(broken) => Ok(Safety::Broken(broken)),
    }
}

/// Tells of two texts whether the change from the first to the second is safe, as errors the place where it isn't, and gives the status.
///
/// # Failure
/// Each has the status 3: E01, and E95 where a write failed.
#[tactic(auto, using(crate::proofs::Tellings::untold))]
pub fn tell_safety<T: Texts, O: Output, P: Output>(
    alloc: Global,
    texts: &T,
    output: &mut O,
    errors: &mut P,
    old: &str,
    new: &str,
) -> Result<u8, Fault>
    ensures tells { Tells O.Output P.Output (safety_told old.now new.now (safety_of (T.meaning old.now) (T.meaning new.now)))
        output.old output.new errors.old errors.new result }
    // The status is 0 exactly where both are programs and the new one wraps the old one.
    ensures safe { IfOk result (λ n. (n ≡ 0) ↔ MeansWrap (T.meaning old.now) (T.meaning new.now)) }
{
    let safety = compare_texts(alloc, texts, old, new)?;
    let lines = safety.lines(alloc)?;
    let marks = safety.marks(alloc, old, new)?;
    tell(output, errors, lines, marks.as_slice(), safety.status())
}
