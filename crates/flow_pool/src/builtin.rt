//! The activities that the program `flow` has.
ghost use Rattle.std.specs.Prelude.{◌≡◌, IfOk};
ghost use Rattle.flow_pool.specs.Attempts.{echoed, added, flaked};
ghost use Rattle.flow_pool.specs.Builtin.{all_builtin};

use crate::activity::{Activity, Attempt};
use flow_base::task::Task;
use flow_base::value::Value;
use std::alloc::{AllocError, Global};

/// One of the activities that the program has.
#[derive(Clone, Copy, Debug, Drop)]
pub enum Builtin {
    /// Gives its first argument.
    Echo,
    /// Gives the sum of two ints.
    Add,
    /// Fails twice, and then gives its first argument.
    Flaky,
}

impl Activity for Builtin {
    ghost use Rattle.std.specs.Prelude.{◌≡◌};
    ghost use Rattle.flow_pool.specs.Builtin.{builtin_name, builtin_given};

    ghost named = { builtin_name };

    ghost gives = { λ b t a. a ≡ builtin_given b t.attempt t.args };

    fn name(&self) -> &str {
        match self {
            Builtin::Echo => "echo",
            Builtin::Add => "add",
            Builtin::Flaky => "flaky",
        }
    }

    fn run(&mut self, alloc: Global, task: &Task) -> Result<Attempt, AllocError> {
        match self {
            Builtin::Echo => first_of(alloc, task.args.as_slice()),
            Builtin::Add => sum_of(alloc, task.args.as_slice()),
            Builtin::Flaky => from_third(alloc, task.attempt, task.args.as_slice()),
        }
    }
}

impl Builtin {
    /// All of them.
    pub fn all(alloc: Global) -> Result<Vec<Builtin>, AllocError>
        ensures { IfOk result (λ all. all.items ≡ all_builtin) }
    {
        let mut all = Vec::with_capacity(alloc, 3)?;
        all.push(Builtin::Echo)?;
        all.push(Builtin::Add)?;
        all.push(Builtin::Flaky)?;
        Ok(all)
    }
}

fn first_of(alloc: Global, args: &[Value]) -> Result<Attempt, AllocError>
    ensures { IfOk result (λ a. a ≡ echoed args.now) }
{
    match args {
        [first, ..] => Ok(Attempt::Done(first.copy(alloc)?)),
        [] => Attempt::failed(alloc, "bad arguments"),
    }
}

fn sum_of(alloc: Global, args: &[Value]) -> Result<Attempt, AllocError>
    ensures { IfOk result (λ a. a ≡ added args.now) }
{
    match args {
        [Value::Int(a), Value::Int(b)] => match a.checked_add(*b) {
            Some(n) => Ok(Attempt::Done(Value::Int(n))),
            None => Attempt::failed(alloc, "arith"),
        },
        _ => Attempt::failed(alloc, "bad arguments"),
    }
}

fn from_third(alloc: Global, attempt: u64, args: &[Value]) -> Result<Attempt, AllocError>
    ensures { IfOk result (λ a. a ≡ flaked attempt args.now) }
{
    match args {
        [first, ..] => {
            if attempt < 3 {
                return Attempt::failed(alloc, "flaky");
            }
            Ok(Attempt::Done(first.copy(alloc)?))
        }
        [] => Attempt::failed(alloc, "bad arguments"),
    }
}
