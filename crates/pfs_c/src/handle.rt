//! An instance that is prepared and released, and the handle by which C holds it.
ghost use Rattle.std.specs.Prelude.{◌≡◌, ◌≢◌, IfOk, MatchOption, Option};
ghost use Rattle.std.specs.declared.option.Option.TheVariants.{None, Some};
ghost use Rattle.pfs_base.specs.FlowShop.{FlowShop};
ghost use Rattle.pfs_c.specs.Validation.{shop_of, shop_fault};
ghost use Rattle.pfs_c.specs.Numbers.{Returns};
ghost use Rattle.pfs_c.specs.Private.Outcomes.{Rejects};

use crate::given::{NO_NOTES, instance_of, validate_shop};
use crate::kept::Kept;
use crate::numbers::{CallFault, PFS_OK};
use std::alloc::Global;
use std::marker::Model;
use std::mem::replace;
use std::ptr::null_mut;

/// Prepares an instance. If the struct holds one already, that one is released.
#[unsafe(no_mangle)]
#[tactic(auto, using(crate::proofs::Returning::rejected))]
pub extern "C" fn pfs_prepare(
    alloc: Global,
    times: &[u32],
    jobs: usize,
    machines: usize,
    instance: &mut Prepared,
) -> i32
    ensures number { Returns result (shop_fault times.now jobs machines) }
    ensures done { result ≡ PFS_OK → instance.new.shop ≡ Some (shop_of times.now jobs machines) }
    ensures kept { result ≢ PFS_OK → instance.new.shop ≡ instance.old.shop }
{
    match kept_of(alloc, times, jobs, machines) {
        Ok(kept) => {
            instance.put(kept);
            PFS_OK
        }
        Err(why) => why.number(),
    }
}

fn kept_of(
    alloc: Global,
    times: &[u32],
    jobs: usize,
    machines: usize,
) -> Result<Box<Kept>, CallFault>
    ensures rejected { Rejects result (shop_fault times.now jobs machines) }
    ensures made { IfOk result (λ made. made.value ≡ shop_of times.now jobs machines) }
{
    validate_shop(times, jobs, machines)?;
    let instance = instance_of(alloc, times, jobs, machines, NO_NOTES)?;
    let kept = Kept::new(alloc, instance)?;
    match Box::new(alloc, kept) {
        Ok(kept) => Ok(kept),
        Err(_) => Err(CallFault::Memory),
    }
}

/// Releases an instance. The struct holds none after it.
#[unsafe(no_mangle)]
pub extern "C" fn pfs_release(alloc: Global, instance: &mut Prepared)
    ensures { instance.new.shop ≡ None }
{
    drop(instance.take(alloc));
}

/// The struct `pfs_instance` of C: the address of a prepared instance in a box, or null. `Global` takes no bytes. A type
/// with a `Vec` in it can't cross to C, so the pointer is one to bytes. It has no drop, so the compiler rejects a
/// function that overwrites one without a look at what it holds.
#[repr(C)]
pub struct Prepared {
    at: *mut u8,
    alloc: Global,
    pub(crate) ghost shop: { Option FlowShop },
}

impl Model for Prepared {
    ghost use Rattle.pfs_c.specs.Private.Handle.{holds};
    ghost use Rattle.pfs_c.specs.contracts.kept.Kept.{the_row};

    ghost also_owns = { λ handle. holds the_row handle.alloc handle.at handle.shop };
}

impl Prepared {
    // Makes a handle that holds no instance.
    fn none(alloc: Global) -> Prepared
        ensures { result.shop ≡ None }
    {
        Prepared {
            at: null_mut(),
            alloc,
        }
    }

    // Makes a handle that holds a kept instance.
    fn of(kept: Box<Kept>) -> Prepared
        ensures { result.shop ≡ Some kept.value }
    {
        let (at, alloc) = Box::into_raw_with_allocator(kept);
        Prepared {
            at: at as *mut u8,
            alloc,
        }
    }

    // Returns the instance, or `None` if the handle holds none.
    fn into_box(self) -> Option<Box<Kept>>
        ensures { MatchOption result (self.shop ≡ None) (λ kept. self.shop ≡ Some kept.value) }
    {
        let Prepared { at, alloc } = self;
        if at.is_null() {
            return None;
        }
        Some(unsafe { Box::from_raw(alloc, at as *mut Kept) })
    }

    /// Takes the instance out, after which the handle holds none. Returns `None` if it holds none before.
    pub(crate) fn take(&mut self, alloc: Global) -> Option<Box<Kept>>
        ensures none { self.new.shop ≡ None }
        ensures taken { MatchOption result (self.old.shop ≡ None) (λ kept. self.old.shop ≡ Some kept.value) }
    {
        replace(self, Prepared::none(alloc)).into_box()
    }

    /// Puts an instance in. One that the handle holds is released.
    pub(crate) fn put(&mut self, kept: Box<Kept>)
        ensures { self.new.shop ≡ Some kept.value }
    {
        if let Some(old) = replace(self, Prepared::of(kept)).into_box() {
            drop(old);
        }
    }
}
