//! What is left of a search.
ghost use Rattle.std.specs.Prelude.{◌≡◌, ◌≤◌, [], ◌∷◌, ◌++◌, All, IfOk, OnOk};
ghost use Rattle.pfs_exact.specs.Parts.{NothingLeft, PartBounded, PartSearched, PartsBounded};

use crate::ends::Ends;
use pfs_order::{OrderFault, Seq};
use std::alloc::{AllocError, Global};

/// The orders of all jobs that begin with some jobs and end with some, and a number that none of them is shorter than.
#[derive(Drop)]
pub struct Part {
    pub front: Seq,
    pub back: Seq,
    pub bound: u64,
}

/// Adds the orders of a node to what is left.
pub(crate) fn leave(
    alloc: Global,
    ends: &Ends,
    bound: u64,
    parts: &mut Vec<Part>,
) -> Result<(), AllocError>
    ensures { OnOk result (parts.new.items
        ≡ parts.old.items ++ record { front = ends.now.front; back = ends.now.back; bound = bound } ∷ []) }
{
    let front = copy_of(alloc, &ends.front)?;
    let back = copy_of(alloc, &ends.back)?;
    parts.push(Part { front, back, bound })?;
    Ok(())
}

// A copy of a sequence.
fn copy_of(alloc: Global, seq: &Seq) -> Result<Seq, AllocError>
    ensures { IfOk result (λ copy. copy ≡ seq.now) }
{
    let Ok(mut copy) = Seq::new(alloc, seq.size()) else {
        return Err(AllocError);
    };
    copy.copy_from(seq);
    Ok(copy)
}

/// The least of a number and the bounds of parts.
pub(crate) fn least_bound(number: u64, parts: &[Part]) -> u64
    ensures number { result ≤ number }
    ensures parts { All (λ part. result ≤ part.bound) parts.now }
    ensures none { parts.now ≡ [] → result ≡ number }
{
    let mut least = number;
    for part in parts {
        least = least.min(part.bound);
    }
    least
}

/// Where nothing is left of all orders, none is shorter than the number.
pub fn nothing_left()
    ensures { NothingLeft }
{}

/// What a search of one part left takes the place of the part.
pub fn part_searched()
    ensures { PartSearched }
{}

/// A part with a bound that is not below the number can be left out.
pub fn part_bounded()
    ensures { PartBounded }
{}

/// No order is shorter than a number that neither the first number nor the bound of a part is below.
pub fn parts_bounded()
    ensures { PartsBounded }
{}
