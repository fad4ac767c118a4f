//! What rounds work with.
ghost use Rattle.std.specs.Prelude.{IfOk};
ghost use Rattle.pfs_iterate.specs.Private.Memory.{AreLists, IsWorkFor};

use crate::places::Places;
use pfs_base::Instance;
use pfs_order::Seq;
use pfs_search::Search;
use std::alloc::{AllocError, Global};

/// A sequence that rounds change, and what finds places for jobs in it.
#[derive(Drop)]
pub struct Work {
    /// It finds best places. Rounds leave the order, the makespan and the count that it keeps.
    pub search: Search,
    pub(crate) seq: Seq,
    // What places are chosen with.
    pub(crate) places: Places,
}

impl Work {
    /// Reserves the memory for an instance.
    pub(crate) fn new(alloc: Global, instance: &Instance) -> Result<Work, AllocError>
        ensures { IfOk result (IsWorkFor instance.now.shop) }
    {
        let (Ok(search), Ok(seq)) = (
            Search::new(alloc, instance),
            Seq::new(alloc, instance.jobs()),
        ) else {
            return Err(AllocError);
        };
        Ok(Work {
            search,
            seq,
            places: Places::new(alloc, instance)?,
        })
    }
}

/// Lists of jobs that a round makes.
#[derive(Drop)]
pub(crate) struct Lists {
    // The jobs that it removes.
    pub(crate) removed: Vec<usize>,
    // How many jobs that may move come before each one that stays.
    pub(crate) ranks: Vec<usize>,
    // The jobs that a pass visits, in their order.
    pub(crate) visits: Vec<u32>,
}

impl Lists {
    /// Reserves the memory for an instance.
    pub(crate) fn new(alloc: Global, instance: &Instance) -> Result<Lists, AllocError>
        ensures { IfOk result (AreLists instance.now.shop) }
    {
        let size = instance.jobs();
        Ok(Lists {
            removed: Vec::with_capacity(alloc, size)?,
            ranks: Vec::with_capacity(alloc, size)?,
            visits: Vec::with_capacity(alloc, size)?,
        })
    }
}
