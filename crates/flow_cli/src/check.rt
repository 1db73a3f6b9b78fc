//! What `flow check` says of a text.
ghost use Rattle.std.specs.Prelude.{◌≡◌, IfOk, IfErr, string_bytes};
ghost use Rattle.flow_cli.specs.Telling.{verdict_told, Tells};
ghost use Rattle.flow_cli.specs.Verdicts.{verdict_mark, verdict_of, verdict_text, verdict_status};

use crate::place::mark;
use crate::telling::tell;
use flow_base::command::TextFault;
use flow_base::fault::Fault;
use flow_base::text::RawText;
use flow_lines::output::Output;
use flow_model::texts::Texts;
use std::alloc::{AllocError, Global};

/// Whether a text is a program.
#[derive(Clone, Copy, Debug, PartialEq, Eq)]
pub enum Verdict {
    /// It is.
    Good,
    /// It breaks a rule of the grammar or of the checks.
    Broken(TextFault),
}

impl Verdict {
    /// The line that is written, without its end: `ok`, or as `E11 at 12`.
    pub fn line(self, alloc: Global) -> Result<String, AllocError>
        ensures { IfOk result (λ line. string_bytes line ≡ verdict_text self) }
    {
        match self {
            Verdict::Good => String::from_str(alloc, "ok"),
            Verdict::Broken(TextFault { code, at }) => format!(in alloc; "{code} at {at}"),
        }
    }

    /// The place in a text that is no program, the line there and a mark below it.
    pub fn mark(self, alloc: Global, text: &str) -> Result<Vec<u8>, AllocError>
        ensures { IfOk result (λ marks. marks.items ≡ verdict_mark text.now self) }
    {
        match self {
            Verdict::Good => Ok(Vec::new(alloc)),
            Verdict::Broken(fault) => mark(alloc, "", text, fault.at),
        }
    }

    /// The status that the program ends with.
    pub fn status(self) -> u8
        ensures { result ≡ verdict_status self }
    {
        match self {
            Verdict::Good => 0,
            Verdict::Broken(_) => 1,
        }
    }
}

/// Checks a text by what reads texts.
pub fn check_text<T: Texts>(alloc: Global, texts: &T, text: &str) -> Result<Verdict, Fault>
    ensures verdict { IfOk result (λ v. v ≡ verdict_of (T.meaning text.now)) }
    ensures memory { IfErr result (λ e. e ≡ Fault.NoMemory _) }
{
    let text = RawText::new(alloc, text)?;
    match texts.read(alloc, &text)? {
        Ok(_) => Ok(Verdict::Good),
        Err(fault) => Ok(Verdict::Broken(fault)),
    }
}

/// Checks a text by what reads texts, writes the verdict as a line, where the text is no program the place as errors, and gives the
/// status.
///
/// # Failure
/// Each has the status 3: E01, and E95 where a write failed.
#[tactic(auto, using(crate::proofs::Tellings::untold))]
pub fn tell_verdict<T: Texts, O: Output, P: Output>(
    alloc: Global,
    texts: &T,
    output: &mut O,
    errors: &mut P,
    text: &str,
) -> Result<u8, Fault>
    ensures { Tells O.Output P.Output (verdict_told text.now (verdict_of (T.meaning text.now))) output.old output.new errors.old
        errors.new result }
{
    let verdict = check_text(alloc, texts, text)?;
    let line = verdict.line(alloc)?;
    let marks = verdict.mark(alloc, text)?;
    tell(output, errors, line, marks.as_slice(), verdict.status())
}
