//! Rounds on two orders, with all their memory.
ghost use Rattle.std.specs.Prelude.{◌≡◌, ◌≤◌, IfOk, length, take as front};
ghost use Rattle.pfs_order.specs.Sequence.{IsSequence};
ghost use Rattle.pfs_iterate.specs.Iterated.{movable};
ghost use Rattle.pfs_iterate.specs.Rounds.{CanIterate, IsIterated, IsIteratedFor};

use crate::found::Found;
use crate::options::Options;
use crate::work::{Lists, Work};
use pfs_base::Instance;
use pfs_order::Order;
use pfs_wave::OfShop;
use std::alloc::{AllocError, Global};

/// The makespans of the current and of the best order.
#[derive(Clone, Copy, Debug, PartialEq, Eq)]
pub struct Makespans {
    /// That of the current order.
    pub current: u64,
    /// That of the best order.
    pub best: u64,
}

/// The memory of searches and rounds of an instance.
#[derive(Drop)]
pub struct Iterated {
    /// What rounds work with, and the memory of searches without them.
    pub work: Work,
    pub(crate) lists: Lists,
    pub(crate) words: Vec<u32>,
    pub(crate) current: Found,
    pub(crate) best: Found,
}

impl OfShop for Iterated {
    ghost is_of = { λ iterated shop. IsIteratedFor shop iterated };
}

impl Iterated {
    /// Reserves the memory for an instance.
    pub fn new(alloc: Global, instance: &Instance) -> Result<Iterated, AllocError>
        ensures { IfOk result (λ made. ⟦<Iterated as OfShop>⟧.is_of made instance.now.shop) }
    {
        let size = instance.jobs();
        let (Ok(current), Ok(best)) = (Order::identity(alloc, size), Order::identity(alloc, size))
        else {
            return Err(AllocError);
        };
        Ok(Iterated {
            work: Work::new(alloc, instance)?,
            lists: Lists::new(alloc, instance)?,
            words: vec![in alloc; 0; 2 * size + 1]?,
            current: Found {
                order: current,
                span: 0,
            },
            best: Found {
                order: best,
                span: 0,
            },
        })
    }

    /// Makes rounds on a current and a best order, which it overwrites, and returns their makespans.
    ///
    /// Jobs may move that are behind the first `held` of the current order and have no mark, a number above 0, in `stay`.
    /// A round removes `take` of these, moves those that are left, and inserts the removed ones, each at its best place
    /// from `held` on; then it moves all of them. An order that is longer by d is taken where the round's first word is
    /// less than `accept[d]`.
    pub fn rounds(
        &mut self,
        instance: &Instance,
        options: &Options,
        accept: &[u32],
        stay: &[u8],
        current: &mut [u32],
        best: &mut [u32],
    ) -> Makespans
        requires own { ⟦<Iterated as OfShop>⟧.is_of self.old instance.now.shop }
        requires options { CanIterate instance.now.shop options.now }
        requires current_all { length current.old ≡ instance.now.shop.jobs }
        requires current { IsSequence instance.now.shop.jobs current.old }
        requires best_all { length best.old ≡ instance.now.shop.jobs }
        requires best { IsSequence instance.now.shop.jobs best.old }
        requires front { front options.now.held best.old ≡ front options.now.held current.old }
        requires free { options.now.take ≤ length (movable options.now.held stay.now current.old) }
        ensures done { IsIterated instance.now.shop options.now accept.now stay.now current.old best.old
            current.new result.current best.new result.best }
        ensures still { ⟦<Iterated as OfShop>⟧.is_of self.new instance.now.shop }
        ensures kept { self.new.work.search.kept ≡ self.old.work.search.kept }
        ensures cells { self.new.work.search.cells ≡ self.old.work.search.cells }
    {
        self.current.set(instance, current);
        self.best.set(instance, best);
        self.play(instance, options, accept, stay);
        copy_order(&self.current.order, current);
        copy_order(&self.best.order, best);
        Makespans {
            current: self.current.span,
            best: self.best.span,
        }
    }
}

// Writes an order over another one.
fn copy_order(order: &Order, jobs: &mut [u32])
    requires { length jobs.old ≡ length order.now }
    ensures value { jobs.new ≡ order.now }
    ensures sequence { IsSequence (length order.now) order.now }
{
    // Called for its contract, which says that an order has each job once.
    let _jobs = order.len();
    jobs.copy_from_slice(order.seq().as_slice());
}
