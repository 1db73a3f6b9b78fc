//! The thread that reads.
ghost use Rattle.std.specs.Prelude.{◌≡◌, IfSome};
ghost use Rattle.flow_work.specs.Inputs.{HasRead, IsNext, is_line};

use flow_lines::streams::next_line;
use std::alloc::Global;
use std::io::BufRead;
use std::sync::Wait;

/// What comes of the input.
#[derive(Debug, Drop)]
pub enum InputMessage {
    /// The next line, without its end.
    Line(Vec<u8>),
    /// It has ended.
    Ended,
    /// It can't be read any more.
    Failed,
    /// No line is answered any more.
    Stopped,
}

impl InputMessage {
    fn is_line(&self) -> bool
        ensures { result ≡ is_line self.now }
    {
        matches!(self, InputMessage::Line(_))
    }
}

/// What is read next.
fn next_input<I: BufRead>(alloc: Global, reader: &mut I) -> InputMessage
    ensures { IfSome (I.remaining reader.old) (λ bytes. IsNext bytes result (I.remaining reader.new)) }
{
    match next_line(alloc, reader) {
        Ok(Some(line)) => InputMessage::Line(line),
        Ok(None) => InputMessage::Ended,
        Err(_) => InputMessage::Failed,
    }
}

/// Takes what is read, one after the other.
pub trait Taking: Drop {
    ghost use Rattle.std.specs.Prelude.{◌≡◌, [], ◌∷◌, ◌++◌, List, true, false};
    ghost use Rattle.flow_work.specs.declared.input.InputMessage.{InputMessage};

    /// All that it took, for contracts alone.
    ghost taken: { Self → List InputMessage };

    /// Nobody takes anything any more, for contracts alone.
    ghost gone: { Self → Type 0 };

    /// Takes what is read next. No where nobody does any more.
    fn take<R: Wait>(&mut self, rt: &R, input: InputMessage) -> bool
        ensures taken { result ≡ true → taken self.new ≡ taken self.old ++ input ∷ [] }
        ensures gone { result ≡ false → (taken self.new ≡ taken self.old) × gone self.new };
}

/// Reads line after line and hands each on, until the input has ended or can't be read, or nobody takes it. Both come back.
pub fn read_lines<R: Wait, I: BufRead + Drop, T: Taking>(
    rt: &R,
    alloc: Global,
    reader: I,
    taking: T,
) -> (I, T)
    ensures { HasRead (T.gone result.1) (I.remaining reader) (I.remaining result.0) (T.taken taking) (T.taken result.1) }
{
    let mut reader = reader;
    let mut taking = taking;
    'lines: for _ in rt.forever() {
        let input = next_input(alloc, &mut reader);
        let is_line = input.is_line();
        if !taking.take(rt, input) {
            return (reader, taking);
        }
        if !is_line {
            return (reader, taking);
        }
    }
    unreachable!()
}
