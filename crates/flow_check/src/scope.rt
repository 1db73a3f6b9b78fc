ghost use Rattle.std.specs.Prelude.{◌≡◌, [], ◌∷◌, map, take, length, option_map, OnOk, OnErr};
ghost use Rattle.flow_base.specs.Shown.{shown_declaration};
ghost use Rattle.flow_model.specs.WellFormed.{with_type, no_types, types_of_parameters, activity_of, signal_of};
ghost use Rattle.flow_check.specs.Tables.{variables_of, types_of, activities_of, signals_of, parameters_of, kinds_of_parameters, shown_signature, nothing_known, first_then, only, IsSame};

use flow_base::syntax::{Declaration, Parameter, TypeAt};
use flow_base::text::Key;
use flow_base::value::Kind;
use indexmap::IndexMap;
use std::alloc::{AllocError, Global};

/// What an activity takes and gives.
#[derive(Clone, Copy)]
pub struct Signature<'a> {
    pub takes: &'a [TypeAt],
    pub gives: Kind,
}

/// A visible variable. One whose value has a fault has no type.
#[derive(Drop)]
pub struct Variable<'a> {
    pub name: &'a Key,
    pub kind: Option<Kind>,
}

/// What is known where a statement stands: the visible variables with their types, the activities and the signals, and the
/// parameters with which the program continues as new.
#[derive(Drop)]
pub struct Scope<'a> {
    /// In the order of their declarations, so that behind a list what it declared is at the end; of two of one name the
    /// last is meant.
    variables: Vec<Variable<'a>>,
    /// Of two activities of one name the first.
    activities: IndexMap<&'a str, Signature<'a>>,
    /// What each signal carries; of two of one name the first.
    signals: IndexMap<&'a str, Kind>,
    parameters: &'a [Parameter],
}

impl<'a> Scope<'a> {
    /// Nothing is known but how the program continues as new.
    pub fn none(alloc: Global, parameters: &'a [Parameter]) -> Scope<'a>
        ensures types { types_of result ≡ no_types }
        ensures activities { activities_of result ≡ nothing_known }
        ensures signals { signals_of result ≡ nothing_known }
        ensures parameters { parameters_of result ≡ kinds_of_parameters parameters.now }
    {
        Scope {
            variables: Vec::new(alloc),
            activities: IndexMap::new(alloc),
            signals: IndexMap::new(alloc),
            parameters,
        }
    }

    /// The parameters become variables, each of its type.
    pub fn add_parameters(&mut self, parameters: &'a [Parameter]) -> Result<(), AllocError>
        ensures types { OnOk result (types_of self.new ≡ types_of_parameters (types_of self.old) parameters.now) }
        ensures activities { OnOk result (activities_of self.new ≡ activities_of self.old) }
        ensures signals { OnOk result (signals_of self.new ≡ signals_of self.old) }
        ensures parameters { OnOk result (parameters_of self.new ≡ parameters_of self.old) }
    {
        for parameter in parameters {
            self.add_variable(&parameter.name, Some(parameter.kind))?;
        }
        Ok(())
    }

    /// The activities and signals become known; of two of one name the first stays.
    pub fn add_declarations(&mut self, declarations: &'a [Declaration]) -> Result<(), AllocError>
        ensures types { OnOk result (types_of self.new ≡ types_of self.old) }
        ensures activities { OnOk result (activities_of self.new ≡ first_then (activities_of self.old)
            (activity_of (map shown_declaration declarations.now))) }
        ensures signals { OnOk result (signals_of self.new ≡ first_then (signals_of self.old)
            (signal_of (map shown_declaration declarations.now))) }
        ensures parameters { OnOk result (parameters_of self.new ≡ parameters_of self.old) }
    {
        for declaration in declarations {
            self.add_declaration(declaration)?;
        }
        Ok(())
    }

    fn add_declaration(&mut self, declaration: &'a Declaration) -> Result<(), AllocError>
        ensures types { OnOk result (types_of self.new ≡ types_of self.old) }
        ensures activities { OnOk result (activities_of self.new ≡ first_then (activities_of self.old)
            (activity_of (shown_declaration declaration.now ∷ []))) }
        ensures signals { OnOk result (signals_of self.new ≡ first_then (signals_of self.old)
            (signal_of (shown_declaration declaration.now ∷ []))) }
        ensures parameters { OnOk result (parameters_of self.new ≡ parameters_of self.old) }
    {
        match declaration {
            Declaration::Activity(_, _, name, takes, gives) => self.add_activity(
                name,
                Signature {
                    takes,
                    gives: *gives,
                },
            ),
            Declaration::Signal(_, _, name, carries) => self.add_signal(name, *carries),
        }
    }

    /// The activity is declared, if none of its name was.
    fn add_activity(&mut self, name: &'a Key, signature: Signature<'a>) -> Result<(), AllocError>
        ensures types { OnOk result (types_of self.new ≡ types_of self.old) }
        ensures activities { OnOk result (activities_of self.new ≡ first_then (activities_of self.old)
            (only name.now (shown_signature signature.entry))) }
        ensures signals { OnOk result (signals_of self.new ≡ signals_of self.old) }
        ensures parameters { OnOk result (parameters_of self.new ≡ parameters_of self.old) }
    {
        if !self.activities.contains_key(name.as_str()) {
            self.activities.insert(name.as_str(), signature)?;
        }
        Ok(())
    }

    /// The signal is declared, if none of its name was.
    fn add_signal(&mut self, name: &'a Key, carries: Kind) -> Result<(), AllocError>
        ensures types { OnOk result (types_of self.new ≡ types_of self.old) }
        ensures activities { OnOk result (activities_of self.new ≡ activities_of self.old) }
        ensures signals { OnOk result (signals_of self.new ≡ first_then (signals_of self.old) (only name.now carries)) }
        ensures parameters { OnOk result (parameters_of self.new ≡ parameters_of self.old) }
    {
        if !self.signals.contains_key(name.as_str()) {
            self.signals.insert(name.as_str(), carries)?;
        }
        Ok(())
    }

    /// The variable is visible from here on. After an error all is known that was, and no more.
    pub fn add_variable(&mut self, name: &'a Key, kind: Option<Kind>) -> Result<(), AllocError>
        ensures variables { OnOk result (take (length (variables_of self.old)) (variables_of self.new) ≡ variables_of self.old) }
        ensures types { OnOk result (types_of self.new ≡ with_type (types_of self.old) name.now kind) }
        ensures same { OnErr result (IsSame self.old self.new) }
        ensures activities { OnOk result (activities_of self.new ≡ activities_of self.old) }
        ensures signals { OnOk result (signals_of self.new ≡ signals_of self.old) }
        ensures parameters { OnOk result (parameters_of self.new ≡ parameters_of self.old) }
    {
        self.variables.push(Variable { name, kind })?;
        Ok(())
    }

    /// How many variables are visible.
    pub fn visible(&self) -> usize
        ensures { result ≡ length (variables_of self.now) }
    {
        self.variables.len()
    }

    /// Only so many of the variables are visible from here on, those that were declared first.
    pub fn forget_beyond(&mut self, count: usize)
        ensures variables { variables_of self.new ≡ take count (variables_of self.old) }
        ensures activities { activities_of self.new ≡ activities_of self.old }
        ensures signals { signals_of self.new ≡ signals_of self.old }
        ensures parameters { parameters_of self.new ≡ parameters_of self.old }
    {
        self.variables.truncate(count);
    }

    /// The type of a visible variable, if it has one.
    pub fn variable(&self, name: &Key) -> Option<Option<Kind>>
        ensures { result ≡ types_of self.now name.now }
    {
        let mut i = self.variables.len();
        while i > 0 {
            i -= 1;
            let variable = &self.variables[i];
            if variable.name.as_str() == name.as_str() {
                return Some(variable.kind);
            }
        }
        None
    }

    /// What an activity takes and gives, if it is declared.
    pub fn activity(&self, name: &Key) -> Option<Signature<'a>>
        ensures { option_map shown_signature result ≡ activities_of self.now name.now }
    {
        self.activities.get(name.as_str()).copied()
    }

    /// What a signal carries, if it is declared.
    pub fn signal(&self, name: &Key) -> Option<Kind>
        ensures { result ≡ signals_of self.now name.now }
    {
        self.signals.get(name.as_str()).copied()
    }

    /// What the program takes.
    pub fn parameters(&self) -> &'a [Parameter]
        ensures { kinds_of_parameters result.now ≡ parameters_of self.now }
    {
        self.parameters
    }
}
