//! The two texts of a change, where one of them is no program.
ghost use Rattle.std.specs.Prelude.{◌≡◌, ◌++◌, ◌∷◌, Ok, Err, IfOk, IfErr, string_bytes};
ghost use Rattle.flow_model.specs.Checked.{shown_checked};
ghost use Rattle.flow_cli.specs.Changes.{both_of, broken_marks, broken_text, place_text};

use crate::place::mark;
use flow_base::command::TextFault;
use flow_base::fault::Fault;
use flow_base::text::RawText;
use flow_model::checked::Checked;
use flow_model::texts::Texts;
use std::alloc::{AllocError, Global};

/// Which of two texts are no programs, and where.
#[derive(Clone, Copy, Debug, PartialEq, Eq)]
pub enum Broken {
    Old(TextFault),
    New(TextFault),
    Both(TextFault, TextFault),
}

impl Broken {
    /// What is written, without its end: `old: E11 at 12` and `new: E10 at 25`, a line each.
    pub fn lines(self, alloc: Global) -> Result<String, AllocError>
        ensures { IfOk result (λ line. string_bytes line ≡ broken_text self) }
    {
        match self {
            Broken::Old(fault) => fault_line(alloc, "old", fault),
            Broken::New(fault) => fault_line(alloc, "new", fault),
            Broken::Both(old, new) => {
                let old = fault_line(alloc, "old", old)?;
                let new = fault_line(alloc, "new", new)?;
                format!(in alloc; "{old}\n{new}")
            }
        }
    }

    /// The place in each text that is no program, the line there and a mark below it.
    pub fn marks(self, alloc: Global, old: &str, new: &str) -> Result<Vec<u8>, AllocError>
        ensures { IfOk result (λ marks. marks.items ≡ broken_marks old.now new.now self) }
    {
        match self {
            Broken::Old(fault) => mark(alloc, "old: ", old, fault.at),
            Broken::New(fault) => mark(alloc, "new: ", new, fault.at),
            Broken::Both(first, second) => {
                let mut marks = mark(alloc, "old: ", old, first.at)?;
                let later = mark(alloc, "new: ", new, second.at)?;
                marks.extend_from_slice(later.as_slice())?;
                Ok(marks)
            }
        }
    }
}

/// Which text is no program, and where.
fn fault_line(alloc: Global, which: &str, fault: TextFault) -> Result<String, AllocError>
    ensures { IfOk result (λ line. string_bytes line ≡ which.now ++ (58 ∷ 32 ∷ place_text fault)) }
{
    let TextFault { code, at } = fault;
    format!(in alloc; "{which}: {code} at {at}")
}

/// The programs that two texts are, by what reads texts; or which of them are none.
pub(crate) fn read_both<T: Texts>(
    alloc: Global,
    texts: &T,
    old: &str,
    new: &str,
) -> Result<Result<(Checked, Checked), Broken>, Fault>
    ensures programs { IfOk result (λ r. IfOk r (λ ps. both_of (T.meaning old.now) (T.meaning new.now) ≡ Ok
        (shown_checked ps.0, shown_checked ps.1))) }
    ensures broken { IfOk result (λ r. IfErr r (λ b. both_of (T.meaning old.now) (T.meaning new.now) ≡ Err b)) }
    ensures memory { IfErr result (λ e. e ≡ Fault.NoMemory _) }
{
    let old = RawText::new(alloc, old)?;
    let new = RawText::new(alloc, new)?;
    let old = texts.read(alloc, &old)?;
    let new = texts.read(alloc, &new)?;
    match (old, new) {
        (Ok(old), Ok(new)) => Ok(Ok((old, new))),
        (Err(fault), Ok(_)) => Ok(Err(Broken::Old(fault))),
        (Ok(_), Err(fault)) => Ok(Err(Broken::New(fault))),
        (Err(old), Err(new)) => Ok(Err(Broken::Both(old, new))),
    }
}
