//! A log that nobody else writes, under a rule that asks nothing, is a list that only proofs see.
ghost use Rattle.std.specs.Prelude.{◌≡◌, List};

use logbook::{Opening, Rule, Seen, Start};
use std::marker::{Model, PhantomData};

/// The rule that asks nothing: any list may stand in the log.
pub struct Anything;

impl<E> Rule<E, ()> for Anything {
    ghost use Rattle.std.specs.Prelude.{[]};
    ghost use base.Fml.{ftrue};

    ghost holds = { λ cells log. Unit {0} };

    ghost first = { [] };

    ghost hinted = { λ n log. Unit {0} };

    ghost shows = { λ log. [] };

    ghost keeps = { λ names log. ftrue };

    ghost moves = { λ ask before after answer. Unit {0} };
}

/// How a list is made of a value that the code has. `X` may be a tuple of references and of other lists, so a longer list
/// is made of the shorter one and what comes behind it.
pub trait Makes<X, E> {
    ghost list: { X → List E };
}

struct By<M> {
    of: PhantomData<M>,
}

impl<X, E, M: Makes<X, E>> Opening<X, E> for By<M> {
    ghost log = { λ count x. M.list x };
}

/// A list of `E` that exists in contracts alone: it has no bytes, and nothing at run time depends on it. A contract sees the
/// list. Any list may be made, so a clause on it says something only where an invariant or another clause ties the list to
/// what the code has.
#[derive(Drop)]
pub struct Listed<E> {
    seen: Seen<E, (), Anything>,
}

impl<E> Model for Listed<E> {
    ghost Value = { List E };

    ghost view = { λ g. g.seen.log };
}

impl<E> Listed<E> {
    /// The list that `M` makes of a value, which is only looked at by the proof.
    pub fn of<X, M: Makes<X, E>>(x: &X) -> Listed<E>
        ensures { result ≡ M.list x.now }
    {
        let (seen, _pens) = Seen::open_row::<X, By<M>>(x, Start::alone(), 0);
        Listed { seen }
    }

    /// The same list once more. It takes no memory, and can't fail.
    pub fn again(&self) -> Listed<E>
        ensures { result ≡ self.now }
    {
        Listed {
            seen: self.seen.again(),
        }
    }
}
