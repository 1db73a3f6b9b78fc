//! A seat in memory of its own, so that a node of a tree, whose places are half empty where numbers come in order, has a pointer in
//! each of them.
ghost use Rattle.std.specs.Prelude.{◌≡◌, IfSome};

use crate::seat::Seat;
use std::alloc::Global;
use std::boxed::Box;
use std::marker::Model;

/// A seat, apart from what holds it. A contract sees the seat.
#[derive(Drop)]
pub(crate) struct Apart {
    seat: Box<Seat>,
}

impl Model for Apart {
    ghost use Rattle.flow_maps.specs.declared.seat.Seat as it;
    ghost use Rattle.flow_maps.specs.contracts.seat.Seat as row;

    ghost Value = { it.Seat };

    ghost coded = { row.the_row.coded };

    ghost view = { λ a. a.seat.value };
}

impl Apart {
    /// None where there is no memory for it.
    pub(crate) fn new(alloc: Global, seat: Seat) -> Option<Apart>
        ensures { IfSome result (λ a. a ≡ seat) }
    {
        match Box::new(alloc, seat) {
            Ok(seat) => Some(Apart { seat }),
            Err(_) => None,
        }
    }

    /// The seat.
    pub(crate) fn into_seat(self) -> Seat
        ensures { result ≡ self }
    {
        Box::into_inner(self.seat)
    }

    /// The seat, as it stands.
    pub(crate) fn as_seat(&self) -> &Seat
        ensures { result.now ≡ self.now }
    {
        &self.seat
    }
}
