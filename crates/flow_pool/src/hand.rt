//! What the ends of the channel of tasks know, and what its calls tell. No value of these is made.
use crossbeam_channel::protocol::{Join, Lesson, Outcome, Protocol, Split};
use flow_base::task::Task;
use std::collections::LinkedList;
use std::marker::PhantomData;

/// What a worker that has come back had taken.
pub struct Back {
    pub worker: u64,
    pub got: LinkedList<Task>,
}

/// What an end of the channel knows.
pub struct Hand {
    /// It is the dispatcher's end.
    pub sends: bool,
    /// All that was put.
    pub put: LinkedList<Task>,
    /// How many workers were made.
    pub made: u64,
    /// What the workers that have come back had taken.
    pub back: LinkedList<Back>,
    /// It is a worker's end.
    pub works: bool,
    pub worker: u64,
    /// All that the worker has taken.
    pub got: LinkedList<Task>,
}

/// What a channel tells only one who asked it for a task while it held none.
///
/// Who takes tasks of a channel knows of `empty` nothing but its name. So a body that answers that there is none can't make it up: it has
/// to ask the channel, and be told so.
pub trait Tells {
    ghost empty: { Type 0 };
}

/// What it tells is true.
pub struct Truly;

impl Tells for Truly {
    ghost empty = { Unit {0} };
}

/// The rule of the channel.
pub struct InTurn<E> {
    tells: PhantomData<E>,
}

impl<E: Tells> Protocol<Task, Hand> for InTurn<E> {
    ghost use Rattle.std.specs.Prelude.{[]};
    ghost use Rattle.flow_pool.specs.Orders.{feeding, Keeps};

    ghost holds = { Keeps E.empty };

    ghost first = { feeding [] 0 [] };
}

/// A task is put.
pub struct Puts;

impl Outcome<Task, Hand> for Puts {
    ghost use Rattle.std.specs.Prelude.{◌≡◌, [], ◌∷◌, ◌++◌};
    ghost use Rattle.flow_pool.specs.Orders.{feeding};

    ghost then = { λ v x w. w ≡ feeding (v.put ++ x ∷ []) v.made v.back };
}

impl Lesson<Task, Hand> for Puts {
    ghost fact = { λ v items. Unit {0} };
}

/// A task is taken; or none is there.
pub struct Takes<E> {
    tells: PhantomData<E>,
}

impl<E> Outcome<Task, Hand> for Takes<E> {
    ghost use Rattle.std.specs.Prelude.{◌≡◌, [], ◌∷◌, ◌++◌};
    ghost use Rattle.flow_pool.specs.Orders.{working};

    ghost then = { λ v x w. w ≡ working v.worker (v.got ++ x ∷ []) };
}

impl<E: Tells> Lesson<Task, Hand> for Takes<E> {
    ghost use Rattle.flow_pool.specs.Orders.{IsSeen};

    ghost fact = { λ v items. IsSeen E.empty v items };
}

/// One more worker is made.
pub struct AddsWorker;

impl Split<Hand> for AddsWorker {
    ghost use Rattle.std.specs.Prelude.{[], ◌+◌};
    ghost use Rattle.flow_pool.specs.Orders.{feeding, working};

    ghost left = { λ v. feeding v.put (v.made + 1) v.back };

    ghost right = { λ v. working v.made [] };
}

/// A worker comes back.
pub struct Returns;

impl Join<Hand> for Returns {
    ghost use Rattle.std.specs.Prelude.{[], ◌∷◌, ◌++◌};
    ghost use Rattle.flow_pool.specs.Orders.{feeding, gone, back_of};

    ghost both = { λ v w. feeding v.put v.made (v.back ++ back_of w.worker w.got ∷ []) };

    ghost spent = { gone };
}

/// What the rule tells the dispatcher.
pub struct Learnt;

impl Lesson<Task, Hand> for Learnt {
    ghost use Rattle.flow_pool.specs.Orders.{Delivers};

    ghost fact = { λ v items. Delivers v.put v.made v.back };
}
