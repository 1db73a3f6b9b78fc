//! The text of a program: its tokens, joined by one space.
ghost use Rattle.std.specs.Prelude.{◌≡◌, ◌≤◌, ◌++◌, map, length, OnOk, IfOk, string_bytes};
ghost use Rattle.flow_base.specs.Syntax.{Bytes, Activity, Signal};
ghost use Rattle.flow_base.specs.Shown.{shown_declaration, shown_program};
ghost use Rattle.flow_model.specs.Meaning.{IsProgramOf};
ghost use Rattle.flow_syntax.specs.Print.{spaced, type_words, parameter_words, declared_words, declarations_words, words_behind_keyword, program_words, joined, AreReadAs, ArePrintable, HasTokens, IsTextOf, IsProgramAgain, HasLeastWords};

use crate::listed::{Item, print_list};
use crate::print_statement::statements;
use crate::printer::Printer;
use crate::readable;
use flow_base::syntax::{Declaration, Parameter, Program, TypeAt};
use flow_base::text::Key;
use flow_base::token::Mark;
use flow_base::value::Kind;
use std::alloc::{AllocError, Global};

impl Item for TypeAt {
    ghost item_words = { type_words };

    fn print(&self, out: &mut Printer) -> Result<(), AllocError> {
        out.kind(self.kind)
    }
}

impl Item for Parameter {
    ghost item_words = { parameter_words };

    fn print(&self, out: &mut Printer) -> Result<(), AllocError> {
        out.name(&self.name)?;
        out.mark(Mark::Colon)?;
        out.kind(self.kind)?;
        Ok(())
    }
}

fn activity(out: &mut Printer, name: &Key, takes: &[TypeAt], gives: Kind) -> Result<(), AllocError>
    ensures { OnOk result (out.new ≡ out.old ++ spaced (declared_words (Activity 0 0 name.now takes.now gives))) }
{
    out.mark(Mark::Activity)?;
    out.name(name)?;
    print_list(out, takes)?;
    out.mark(Mark::Arrow)?;
    out.kind(gives)?;
    out.mark(Mark::Semicolon)?;
    Ok(())
}

fn signal(out: &mut Printer, name: &Key, carries: Kind) -> Result<(), AllocError>
    ensures { OnOk result (out.new ≡ out.old ++ spaced (declared_words (Signal 0 0 name.now carries))) }
{
    out.mark(Mark::Signal)?;
    out.name(name)?;
    out.mark(Mark::Colon)?;
    out.kind(carries)?;
    out.mark(Mark::Semicolon)?;
    Ok(())
}

fn declaration(out: &mut Printer, declaration: &Declaration) -> Result<(), AllocError>
    ensures { OnOk result (out.new ≡ out.old ++ spaced (declared_words (shown_declaration declaration.now))) }
{
    match declaration {
        Declaration::Activity(_, _, name, takes, gives) => activity(out, name, takes, *gives),
        Declaration::Signal(_, _, name, carries) => signal(out, name, *carries),
    }
}

fn declarations(out: &mut Printer, list: &[Declaration]) -> Result<(), AllocError>
    ensures { OnOk result (out.new ≡ out.old ++ spaced (declarations_words (map shown_declaration list.now))) }
{
    for next in list {
        declaration(out, next)?;
    }
    Ok(())
}

/// A program without its first word.
fn behind_keyword(out: &mut Printer, program: &Program) -> Result<(), AllocError>
    ensures { OnOk result (out.new ≡ out.old ++ spaced (words_behind_keyword (shown_program program.now))) }
{
    out.name(&program.name)?;
    print_list(out, &program.parameters)?;
    out.mark(Mark::BraceOpen)?;
    declarations(out, &program.declarations)?;
    statements(out, program.body.as_slice())?;
    out.mark(Mark::BraceClose)?;
    Ok(())
}

/// The text of a program: its tokens joined by one space, parentheses only where the grammar needs them. For a program
/// that [`crate::parse::parse`] gave it is a text of the same program, up to places.
pub fn print(alloc: Global, program: &Program) -> Result<String, AllocError>
    ensures words { IfOk result (λ text. string_bytes text ≡ joined (program_words (shown_program program.now))) }
    // Wherever the tokens of these words stand, the grammar reads them as the program, up to places.
    ensures read { OnOk result (AreReadAs (program_words (shown_program program.now)) (shown_program program.now)) }
    // Where the program's names, numbers and texts are such as a text may have, the tokens of the text are these words.
    ensures tokens { IfOk result (λ text. ArePrintable (program_words (shown_program program.now))
        → HasTokens (string_bytes text) (program_words (shown_program program.now))) }
    // And then it is a text of the program.
    ensures again { IfOk result (λ text. ArePrintable (program_words (shown_program program.now))
        → IsTextOf (string_bytes text) (shown_program program.now)) }
    // The program of some text is such a program.
    ensures printable { OnOk result ((source : Bytes) → IsProgramOf source (shown_program program.now)
        → ArePrintable (program_words (shown_program program.now))) }
    // What is printed of it, if it isn't too long, is a text that is this program, up to places.
    ensures parsed { IfOk result (λ text. (source : Bytes) → IsProgramOf source (shown_program program.now)
        → length (string_bytes text) ≤ 65536 → IsProgramAgain (string_bytes text) (shown_program program.now)) }
    // No tokens that are read as the program, up to places, are fewer: there is no needless pair of parentheses.
    ensures least { OnOk result (HasLeastWords (shown_program program.now)) }
{
    readable::statements(program.body.as_slice());
    let mut out = Printer::new(alloc, "workflow")?;
    behind_keyword(&mut out, program)?;
    Ok(out.finish())
}
