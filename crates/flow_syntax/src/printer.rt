//! What writes the text of a program, token by token.
ghost use Rattle.std.specs.Prelude.{◌≡◌, pos, [], ◌∷◌, ◌++◌, OnOk, IfOk, string_bytes};
ghost use Rattle.std.specs.Char.{encode_utf8};
ghost use Rattle.std.specs.Fmt.{decimal, signed_decimal};
ghost use Rattle.flow_base.specs.declared.token.Word.TheVariants as word;
ghost use Rattle.flow_model.specs.Grammar.{deprecate_name};
ghost use Rattle.flow_syntax.specs.Print.{all_written, spaced, kind_mark};

use flow_base::text::Key;
use flow_base::token::Mark;
use flow_base::value::Kind;
use flow_tokens::spelled;
use std::alloc::{AllocError, Global};
use std::fmt::Write;
use std::marker::Model;

/// The text so far.
#[derive(Debug, Drop)]
pub struct Printer {
    text: String,
}

impl Model for Printer {
    ghost use Rattle.std.specs.Prelude.{List, ℕ, string_bytes};

    ghost Value = { List ℕ };

    ghost view = { λ p. string_bytes p.text };
}

impl Printer {
    /// A text that begins with this token.
    pub fn new(alloc: Global, token: &str) -> Result<Printer, AllocError>
        ensures { IfOk result (λ p. p ≡ token.now) }
    {
        let text = String::from_str(alloc, token)?;
        Ok(Printer { text })
    }

    /// The text that was printed.
    pub fn finish(self) -> String
        ensures { string_bytes result ≡ self }
    {
        self.text
    }

    fn push(&mut self, bytes: &str) -> Result<(), AllocError>
        ensures { OnOk result (self.new ≡ self.old ++ bytes.now) }
    {
        self.text.push_str(bytes)
    }

    /// A token of these bytes, behind a space.
    fn token(&mut self, bytes: &str) -> Result<(), AllocError>
        ensures { OnOk result (self.new ≡ self.old ++ 32 ∷ bytes.now) }
    {
        self.push(" ")?;
        self.push(bytes)?;
        Ok(())
    }

    /// A mark or a keyword, behind a space.
    #[tactic(auto, unfolding(crate::specs::Print::spaced))]
    pub fn mark(&mut self, mark: Mark) -> Result<(), AllocError>
        ensures { OnOk result (self.new ≡ self.old ++ spaced (word.Mark mark ∷ [])) }
    {
        self.token(spelled(mark))
    }

    /// The name of a type, behind a space.
    pub fn kind(&mut self, kind: Kind) -> Result<(), AllocError>
        ensures { OnOk result (self.new ≡ self.old ++ spaced (word.Mark (kind_mark kind) ∷ [])) }
    {
        match kind {
            Kind::Int => self.mark(Mark::Int),
            Kind::Text => self.mark(Mark::Text),
        }
    }

    /// A name, behind a space.
    #[tactic(auto, unfolding(crate::specs::Print::spaced))]
    pub fn name(&mut self, name: &Key) -> Result<(), AllocError>
        ensures { OnOk result (self.new ≡ self.old ++ spaced (word.Name name.now ∷ [])) }
    {
        self.token(name.as_str())
    }

    /// The name that a `deprecate` begins with, behind a space.
    #[tactic(auto, unfolding(crate::specs::Print::spaced))]
    pub fn deprecate(&mut self) -> Result<(), AllocError>
        ensures { OnOk result (self.new ≡ self.old ++ spaced (word.Name deprecate_name ∷ [])) }
    {
        self.token("deprecate")
    }

    /// A number in decimal form, behind a space.
    #[tactic(auto, unfolding(crate::specs::Print::spaced))]
    pub fn number(&mut self, number: i64) -> Result<(), AllocError>
        ensures { OnOk result (self.new ≡ self.old ++ spaced (word.Int number ∷ [])) }
    {
        self.push(" ")?;
        self.digits(number)?;
        Ok(())
    }

    fn digits(&mut self, number: i64) -> Result<(), AllocError>
        ensures { OnOk result (self.new ≡ self.old ++ signed_decimal number) }
    {
        write!(self.text, "{number}")
    }

    /// A number that is never negative.
    #[tactic(auto, unfolding(crate::specs::Print::spaced))]
    pub fn count(&mut self, number: u64) -> Result<(), AllocError>
        ensures { OnOk result (self.new ≡ self.old ++ spaced (word.Int (pos number) ∷ [])) }
    {
        self.push(" ")?;
        self.count_digits(number)?;
        Ok(())
    }

    fn count_digits(&mut self, number: u64) -> Result<(), AllocError>
        ensures { OnOk result (self.new ≡ self.old ++ decimal number) }
    {
        write!(self.text, "{number}")
    }

    /// A text in quotes, with its escapes, behind a space.
    #[tactic(auto, unfolding(crate::specs::Print::spaced))]
    pub fn quoted(&mut self, text: &str) -> Result<(), AllocError>
        ensures { OnOk result (self.new ≡ self.old ++ spaced (word.Text text.now ∷ [])) }
    {
        self.token("\"")?;
        self.written(text)?;
        self.push("\"")?;
        Ok(())
    }

    /// What stands between the quotes of a text.
    fn written(&mut self, text: &str) -> Result<(), AllocError>
        ensures { OnOk result (self.new ≡ self.old ++ all_written text.now) }
    {
        for c in text.chars() {
            self.character(c)?;
        }
        Ok(())
    }

    fn character(&mut self, c: char) -> Result<(), AllocError>
        ensures { OnOk result (self.new ≡ self.old ++ all_written (encode_utf8 c)) }
    {
        match c {
            '"' => self.push("\\\""),
            '\\' => self.push("\\\\"),
            '\n' => self.push("\\n"),
            _ => self.plain(c),
        }
    }

    fn plain(&mut self, c: char) -> Result<(), AllocError>
        ensures { OnOk result (self.new ≡ self.old ++ encode_utf8 c) }
    {
        self.text.push(c)
    }
}
