//! The order that a search keeps.
ghost use Rattle.std.specs.Prelude.{◌≡◌};

use pfs_order::Order;

/// An order and a length, which is its makespan once a search has set both.
#[derive(Drop)]
pub struct Kept<S> {
    pub order: Order,
    pub span: S,
}

impl<S> Kept<S> {
    /// An order, and the length that is taken for its makespan without a check.
    pub fn new(order: Order, span: S) -> Kept<S>
        ensures order { result.order ≡ order }
        ensures span { result.span ≡ span }
    {
        Kept { order, span }
    }
}
