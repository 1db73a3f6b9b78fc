ghost use Rattle.std.specs.Prelude.{◌≡◌, IfOk};
ghost use Rattle.flow_base.specs.Shown.{shown_braced};
ghost use Rattle.flow_base.specs.Syntax.{once};

use crate::text::{Key, Text};
use crate::value::Kind;
use std::alloc::AllocError;
use std::sync::Arc;

/// An operator with one operand.
#[derive(Clone, Copy, Debug, PartialEq, Eq)]
pub enum Unary {
    /// `not`
    Not,
    /// `-`
    Negate,
    /// `text(..)`
    TextOf,
    /// `len(..)`
    Length,
}

/// An operator with two operands.
#[derive(Clone, Copy, Debug, PartialEq, Eq)]
pub enum Binary {
    Or,
    And,
    Equal,
    Differ,
    Less,
    AtMost,
    Greater,
    AtLeast,
    Add,
    Subtract,
    Join,
    Multiply,
    Divide,
    Remain,
}

/// An expression. A place is the byte of the text at which the form's first token begins; an operator between two
/// operands has none of its own, since the form begins where its left operand does.
#[derive(Debug, Drop)]
pub enum Expr {
    Int(usize, i64),
    Text(usize, Text),
    Var(usize, Key),
    /// The turn's moment.
    Now(usize),
    Unary(usize, Unary, Box<Expr>),
    Binary(Binary, Box<Expr>, Box<Expr>),
}

/// How often a call is tried, and the pause between two attempts in milliseconds, with the places of the two numbers.
#[derive(Clone, Copy, Debug, PartialEq, Eq)]
pub struct Retry {
    pub tries_at: usize,
    pub tries: u64,
    pub every_at: usize,
    pub every: u64,
}

impl Retry {
    /// That of a call with no `retry`, which stands at no place: it is tried once.
    pub fn once() -> Retry
        ensures { result ≡ once }
    {
        Retry {
            tries_at: 0,
            tries: 1,
            every_at: 0,
            every: 0,
        }
    }
}

/// A list of statements between braces, and the place of its closing brace. What is left of a run's program shares its
/// lists, so that a turn copies none.
#[derive(Debug, Drop)]
#[cycle(statements)]
pub struct Block {
    pub list: Arc<Vec<Stmt>>,
    pub end: usize,
}

impl Block {
    /// The same list, not a copy of it: its statements are shared.
    pub fn share(&self) -> Result<Block, AllocError>
        ensures { IfOk result (λ b. shown_braced b ≡ shown_braced self.now) }
    {
        Ok(Block {
            list: self.list.clone()?,
            end: self.end,
        })
    }
}

/// A branch of a parallel block, and the place of its opening brace.
#[derive(Debug, Drop)]
#[cycle(statements)]
pub struct Branch {
    pub at: usize,
    pub body: Block,
}

/// A statement. The first place is that of its first token, each further one that of the name behind it.
#[derive(Debug, Drop)]
#[cycle(statements)]
pub enum Stmt {
    /// `let`, and the place of the name.
    Let(usize, usize, Key, Expr),
    Assign(usize, Key, Expr),
    /// A variable, the place of the activity, the activity, its arguments, how often it is tried, and what is done where
    /// it fails for good: with no such list the run fails.
    Call(usize, Key, usize, Key, Vec<Expr>, Retry, Option<Block>),
    /// A variable, the place of the signal, and the signal that it waits for.
    WaitSignal(usize, Key, usize, Key),
    /// The same for at most a delay, in milliseconds, and what is done where none came.
    WaitSignalFor(usize, Key, usize, Key, Expr, Block),
    /// The delay, in milliseconds.
    Sleep(usize, Expr),
    /// What is done where the condition holds, and where it doesn't. A missing second list is an empty one that ends where
    /// the first does.
    If(usize, Expr, Block, Block),
    While(usize, Expr, Block),
    /// The first branch, the others, and the place of the brace that closes the block.
    Parallel(usize, Branch, Vec<Branch>, usize),
    /// The place of the patch's id, the id, what is done since the patch, and what was done before it. A missing second
    /// list is as that of `If`.
    Patch(usize, usize, Key, Block, Block),
    /// The place of the id of a patch whose second list has been taken out, and the id.
    Deprecate(usize, usize, Key),
    Return(usize, Expr),
    FailWith(usize, Expr),
    /// `continue as new`, with the arguments of the next run.
    Continue(usize, Vec<Expr>),
}

/// A parameter of a program, and the place of its name.
#[derive(Debug, Drop)]
pub struct Parameter {
    pub at: usize,
    pub name: Key,
    pub kind: Kind,
}

/// A type in a declaration, and its place.
#[derive(Clone, Copy, Debug, PartialEq, Eq)]
pub struct TypeAt {
    pub at: usize,
    pub kind: Kind,
}

/// A declaration. The first place is that of its keyword, the second that of its name.
#[derive(Debug, Drop)]
pub enum Declaration {
    /// An activity: its name, what it takes and what it gives.
    Activity(usize, usize, Key, Vec<TypeAt>, Kind),
    /// A signal: its name and what it carries.
    Signal(usize, usize, Key, Kind),
}

/// The program of a text, with the places of its parts in the text.
#[derive(Debug, Drop)]
pub struct Program {
    /// The place of the name.
    pub at: usize,
    pub name: Key,
    pub parameters: Vec<Parameter>,
    /// The place of the `)` behind the parameters.
    pub parameters_end: usize,
    pub declarations: Vec<Declaration>,
    pub body: Arc<Vec<Stmt>>,
    /// The place of the last `}`.
    pub body_end: usize,
}
