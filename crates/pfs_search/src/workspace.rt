//! The working memory of a search.

use pfs_order::Seq;
use std::marker::Model;

/// The inserter, the sequence that is built, and the jobs that are inserted into it one after another: NEH's ranking,
/// or the jobs that a round has removed.
#[derive(Drop)]
pub(crate) struct Workspace<I> {
    pub(crate) inserter: I,
    pub(crate) seq: Seq,
    pub(crate) queue: Vec<usize>,
}

impl<I> Model for Workspace<I> {
    ghost use Rattle.std.specs.Prelude.{◌≤◌, vec_capacity};
    ghost use Rattle.pfs_search.specs.SearcherView.{SearcherView};

    ghost Value = { SearcherView I };

    ghost view = { λ a. record { size = a.seq.size; inserter = a.inserter } };

    ghost invariant = { λ a. a.seq.size ≤ vec_capacity a.queue };
}
