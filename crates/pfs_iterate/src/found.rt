//! An order and its makespan.
ghost use Rattle.std.specs.Prelude.{◌≡◌, length};
ghost use Rattle.pfs_order.specs.Sequence.{IsSequence};
ghost use Rattle.pfs_iterate.specs.Private.Steps.{IsMeasured};

use pfs_base::Instance;
use pfs_base::heads::span_of;
use pfs_order::Order;

/// An order, and its makespan.
#[derive(Drop)]
pub(crate) struct Found {
    pub(crate) order: Order,
    pub(crate) span: u64,
}

impl Found {
    /// Keeps an order and its makespan.
    pub(crate) fn set(&mut self, instance: &Instance, jobs: &[u32])
        requires old { length self.old.order ≡ instance.now.shop.jobs }
        requires all { length jobs.now ≡ instance.now.shop.jobs }
        requires sequence { IsSequence instance.now.shop.jobs jobs.now }
        ensures order { self.new.order ≡ jobs.now }
        ensures measured { IsMeasured instance.now.shop self.new.order self.new.span }
    {
        self.order.set(jobs);
        self.span = span_of(instance, jobs);
    }
}
