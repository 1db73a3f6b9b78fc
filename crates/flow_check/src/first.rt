ghost use Rattle.std.specs.Prelude.{◌≡◌, None};
ghost use Rattle.flow_model.specs.WellFormed.{fault, earliest, is_earlier};

use flow_base::code::Code;
use flow_base::command::TextFault;
use std::marker::Model;

/// Of the faults noted so far the one with the least place, and of those there the one with the lowest number.
#[derive(Debug, Drop)]
pub struct FirstFault {
    noted: Option<TextFault>,
}

impl Model for FirstFault {
    ghost use Rattle.std.specs.Prelude.{Option};
    ghost use Rattle.flow_base.specs.declared.command.TextFault.{TextFault};

    ghost Value = { Option TextFault };

    ghost view = { λ f. f.noted };
}

impl FirstFault {
    /// No fault yet.
    pub fn none() -> FirstFault
        ensures { result ≡ None }
    {
        FirstFault { noted: None }
    }

    /// The first fault, if there is one.
    pub fn get(&self) -> Option<TextFault>
        ensures { result ≡ self.now }
    {
        self.noted
    }

    /// One more fault.
    pub fn note(&mut self, code: Code, at: usize)
        ensures { self.new ≡ earliest self.old (fault code at) }
    {
        let fault = TextFault { code, at };
        match self.noted {
            None => self.noted = Some(fault),
            Some(first) => {
                if is_before(fault, first) {
                    self.noted = Some(fault);
                }
            }
        }
    }
}

/// Whether a fault comes before another: by its place, then by its number.
fn is_before(fault: TextFault, other: TextFault) -> bool
    ensures { result ≡ is_earlier fault other }
{
    if fault.at == other.at {
        fault.code.number() < other.code.number()
    } else {
        fault.at < other.at
    }
}
