ghost use Rattle.std.specs.Prelude.{◌≡◌, Result};
ghost use Rattle.flow_base.specs.Syntax.{Bytes, Program};
ghost use Rattle.flow_base.specs.declared.command.TextFault.{TextFault as AFault};
ghost use Rattle.flow_check.specs.Language.{meaning_of};
ghost use Rattle.flow_model.specs.Meaning.{Means};

use crate::check::check;
use crate::fault::CheckFault;
use flow_base::command::TextFault;
use flow_base::text::RawText;
use flow_model::checked::Checked;
use flow_model::texts::Texts;
use flow_syntax::parse::parse;
use std::alloc::{AllocError, Global};

/// The language of programs: its grammar, and then its checking rules.
#[derive(Clone, Copy, Debug)]
pub struct Language;

impl Texts for Language {
    ghost meaning = { meaning_of };

    fn read(
        &self,
        alloc: Global,
        text: &RawText,
    ) -> Result<Result<Checked, TextFault>, AllocError> {
        match parse(alloc, text.as_str()) {
            Ok(program) => match check(alloc, program) {
                Ok(checked) => Ok(Ok(checked)),
                Err(CheckFault::Rule(fault)) => Ok(Err(fault)),
                Err(CheckFault::NoMemory(no_memory)) => Err(no_memory.error()),
            },
            Err(fault) => match fault.place() {
                Ok(at) => Ok(Err(TextFault {
                    code: fault.code(),
                    at,
                })),
                Err(no_memory) => Err(no_memory.error()),
            },
        }
    }
}

/// What a text means for [`Language`]: the one program or fault that the grammar, the limits and the checking rules give it.
pub fn each_text_means_one_thing()
    ensures means { (text : Bytes) → Means text (meaning_of text) }
    ensures once { (text : Bytes) (m n : Result Program AFault) → Means text m → Means text n → m ≡ n }
{}
