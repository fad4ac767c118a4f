//! What an order file states.
ghost use Rattle.std.specs.Prelude.{◌≡◌, ◌<◌, ◌^◌, length};
ghost use Rattle.pfs_base.specs.Limits.{limits};
ghost use Rattle.pfs_order.specs.Sequence.{IsSequence, IsSize, AreMachines};

use crate::order::Order;
use std::marker::Model;

/// An order, and the makespan that its file states for it, which may be wrong. A file of version 2 also
/// states the number of machines.
#[derive(Drop)]
pub struct OrderFile {
    order: Order,
    machines: Option<usize>,
    makespan: u64,
}

impl Model for OrderFile {
    ghost use Rattle.std.specs.Prelude.{◌<◌, ◌^◌};
    ghost use Rattle.pfs_order.specs.Sequence.{StatedOrder, AreMachines};

    ghost Value = { StatedOrder };

    ghost view = { λ a. record { order = a.order; machines = a.machines; makespan = a.makespan } };

    ghost invariant = { λ a. (a.makespan < 10 ^ 18) × AreMachines a.machines };
}

impl OrderFile {
    /// What a file states. The makespan has at most eighteen digits, as in a file.
    pub(crate) fn new(order: Order, machines: Option<usize>, makespan: u64) -> OrderFile
        requires short { makespan < 10 ^ 18 }
        requires stated { AreMachines machines }
        ensures { result ≡ record { order = order; machines = machines; makespan = makespan } }
    {
        OrderFile {
            order,
            machines,
            makespan,
        }
    }

    /// The order that the file states. Its jobs count from 0 here, and from 1 in the file.
    pub fn order(&self) -> &Order
        ensures value { result.now ≡ self.now.order }
        ensures accepted { IsSize limits (length self.now.order) }
        ensures sequence { IsSequence (length self.now.order) self.now.order }
    {
        // The proof needs what `len` ensures of every order.
        let _ = self.order.len();
        &self.order
    }

    /// The number of machines that the file states. It is `None` for a file of version 1.
    pub fn machines(&self) -> Option<usize>
        ensures value { result ≡ self.now.machines }
        ensures accepted { AreMachines result }
    {
        self.machines
    }

    /// The makespan that the file states, which may be wrong.
    pub fn makespan(&self) -> u64
        ensures value { result ≡ self.now.makespan }
        ensures within { result < 10 ^ 18 }
    {
        self.makespan
    }
}
