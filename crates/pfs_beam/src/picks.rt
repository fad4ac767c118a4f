//! Which of many children become nodes.
ghost use Rattle.std.specs.Prelude.{◌≡◌, ℕ, ◌*◌, ◌<◌, ◌≤◌, length, IfOk, vec_len, vec_capacity};
ghost use Rattle.std.specs.List.{All};
ghost use Rattle.pfs_beam.specs.Private.Nodes.{AreChildren, AreOptions, HasRoom, IsChildOf, IsNodeOf};

use crate::beam::Options;
use crate::children::Child;
use crate::guide::Guide;
use crate::level::Left;
use crate::node::Node;
use std::alloc::{AllocError, Global};

/// Room to choose among children: the marks of the jobs that each has at both ends, with its number, and the numbers of those
/// chosen.
#[derive(Drop)]
pub(crate) struct Picks {
    pub(crate) marks: Vec<(u64, usize)>,
    pub(crate) chosen: Vec<usize>,
}

impl Picks {
    /// Room for so many children.
    pub(crate) fn new(alloc: Global, most: usize) -> Result<Picks, AllocError>
        ensures { IfOk result (λ picks. HasRoom most picks) }
    {
        Ok(Picks {
            marks: Vec::with_capacity(alloc, most)?,
            chosen: Vec::with_capacity(alloc, most)?,
        })
    }
}

/// Keeps, of sorted children, as many as the width: the first ones of those that are among the first `per` children with the
/// same jobs at the ends. Returns what was left out.
pub(crate) fn pick(
    guide: &Guide,
    nodes: &[Node],
    picks: &mut Picks,
    children: &mut Vec<Child>,
    options: &Options,
) -> Left
    requires picks { HasRoom (2 * options.now.width) picks.old }
    requires nodes { All (IsNodeOf guide.now) nodes.now }
    requires children { All (λ child. IsChildOf (length nodes.now) guide.now child) children.old.items }
    requires few { vec_len children.old ≤ 2 * options.now.width }
    requires options { AreOptions options.now }
    ensures picks { HasRoom (2 * options.now.width) picks.new }
    ensures capacity { vec_capacity children.new ≡ vec_capacity children.old }
    ensures few { vec_len children.new ≤ options.now.width }
    ensures kept { (nodes first end : ℕ) → AreChildren nodes first end children.old.items
        → AreChildren nodes first end children.new.items }
    ensures same { result ≡ Left.Nothing → children.new.items ≡ children.old.items }
{
    list_marks(guide, nodes, children, picks, options.width);
    choose(picks, children.len(), options);
    let left = if picks.chosen.len() > options.width {
        Left::Cut
    } else if picks.chosen.len() < children.len() {
        Left::Narrow
    } else {
        return Left::Nothing;
    };
    take_chosen(picks, children, options.width);
    left
}

// Keeps the chosen children, as many as the width, in their order.
fn take_chosen(picks: &mut Picks, children: &mut Vec<Child>, width: usize)
    requires few { vec_len children.old ≤ 2 * width }
    requires picks { HasRoom (2 * width) picks.old }
    requires chosen { All (λ number. number < vec_len children.old) picks.old.chosen.items }
    requires all { vec_len picks.old.chosen ≤ vec_len children.old }
    ensures picks { HasRoom (2 * width) picks.new }
    ensures capacity { vec_capacity children.new ≡ vec_capacity children.old }
    ensures few { vec_len children.new ≤ width }
    ensures kept { (nodes first end : ℕ) → AreChildren nodes first end children.old.items
        → AreChildren nodes first end children.new.items }
{
    picks.chosen.sort_unstable();
    picks.chosen.truncate(width);
    for number in 0..picks.chosen.len() {
        children[number] = children[picks.chosen[number]];
    }
    children.truncate(picks.chosen.len());
}

// Lists the marks of the jobs that each child has at both ends, equal ones side by side.
fn list_marks(guide: &Guide, nodes: &[Node], children: &[Child], picks: &mut Picks, width: usize)
    requires picks { HasRoom (2 * width) picks.old }
    requires nodes { All (IsNodeOf guide.now) nodes.now }
    requires children { All (λ child. IsChildOf (length nodes.now) guide.now child) children.now }
    requires few { length children.now ≤ 2 * width }
    ensures picks { HasRoom (2 * width) picks.new }
    ensures all { vec_len picks.new.marks ≡ length children.now }
    ensures numbers { All (λ entry. entry.1 < length children.now) picks.new.marks.items }
{
    picks.marks.clear();
    for number in 0..children.len() {
        let child = children[number];
        let node = &nodes[child.node];
        let marks = guide.marks(node.marks, node.seq.at(child.place));
        picks.marks.push_reserved((marks, number));
    }
    picks.marks.sort_unstable();
}

// Chooses the first `per` of those with the same marks.
fn choose(picks: &mut Picks, count: usize, options: &Options)
    requires picks { HasRoom (2 * options.now.width) picks.old }
    requires few { vec_len picks.old.marks ≤ 2 * options.now.width }
    requires numbers { All (λ entry. entry.1 < count) picks.old.marks.items }
    ensures picks { HasRoom (2 * options.now.width) picks.new }
    ensures few { vec_len picks.new.chosen ≤ vec_len picks.old.marks }
    ensures numbers { All (λ number. number < count) picks.new.chosen.items }
{
    picks.chosen.clear();
    let mut same: usize = 0;
    for index in 0..picks.marks.len() {
        let (marks, number) = picks.marks[index];
        if index > 0 && picks.marks[index - 1].0 == marks {
            same = same.saturating_add(1);
        } else {
            same = 0;
        }
        if same < options.per {
            picks.chosen.push_reserved(number);
        }
    }
}
