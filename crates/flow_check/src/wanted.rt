ghost use Rattle.std.specs.Prelude.{◌≡◌, length, slice_get};
ghost use Rattle.flow_model.specs.WellFormed.{kinds_of};
ghost use Rattle.flow_check.specs.Tables.{kinds_wanted, kinds_of_parameters};

use flow_base::syntax::{Parameter, TypeAt};
use flow_base::value::Kind;

/// The types that arguments are wanted to have, each at its position.
#[derive(Clone, Copy)]
pub enum Wanted<'a> {
    Types(&'a [TypeAt]),
    Parameters(&'a [Parameter]),
}

impl<'a> Wanted<'a> {
    /// How many arguments are wanted.
    pub fn count(&self) -> usize
        ensures { result ≡ length (kinds_wanted self.now) }
    {
        match self {
            Wanted::Types(types) => types.len(),
            Wanted::Parameters(parameters) => parameters.len(),
        }
    }

    /// The type at a position, if there is one.
    pub fn kind_at(&self, i: usize) -> Option<Kind>
        ensures { result ≡ slice_get (kinds_wanted self.now) i }
    {
        match self {
            Wanted::Types(types) => type_at(types, i),
            Wanted::Parameters(parameters) => parameter_at(parameters, i),
        }
    }
}

fn type_at(types: &[TypeAt], i: usize) -> Option<Kind>
    ensures { result ≡ slice_get (kinds_of types.now) i }
{
    match types.get(i) {
        Some(wanted) => Some(wanted.kind),
        None => None,
    }
}

fn parameter_at(parameters: &[Parameter], i: usize) -> Option<Kind>
    ensures { result ≡ slice_get (kinds_of_parameters parameters.now) i }
{
    match parameters.get(i) {
        Some(wanted) => Some(wanted.kind),
        None => None,
    }
}
