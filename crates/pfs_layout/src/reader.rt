//! A reader of instance files to which the caller passes the bytes.
ghost use Rattle.std.specs.Prelude.{◌≡◌, ◌≢◌, ◌↔◌, ℕ, ◌+◌, ◌≤◌, List, [], ◌++◌, length, true, false, IfOk, IfErr};
ghost use Rattle.std.specs.Prelude.{IfSome};
ghost use Rattle.std.specs.Result.{result_err};
ghost use Rattle.pfs_base.specs.Limits.{limits};
ghost use Rattle.pfs_layout.specs.File.{IsInstanceFile};
ghost use Rattle.pfs_layout.specs.Rejection.{RejectsInstance};
ghost use Rattle.pfs_layout.specs.Reader.{is_live as live_test, HasRead, HoldsFew, FeedMeets, FinishMeets};
ghost use Rattle.pfs_layout.specs.Reader.{ReadsAsFar, progress_of};

use crate::blocks::{Blocks, Phase, Progress};
use crate::scan::Line;
use crate::{Layout, LayoutFault};
use pfs_base::{Instance, MOST_BLOCKS, Source};
use std::alloc::Global;
use std::marker::Model;

/// Reads one block of an instance file from pieces that may be cut anywhere. It keeps the block's instance and
/// a fixed number of further fields, but no copy of the input.
#[derive(Drop)]
pub struct BlockReader {
    alloc: Global,
    /// The line that is being read.
    last: Line,
    blocks: Blocks,
}

impl Model for BlockReader {
    ghost use Rattle.pfs_layout.specs.Reader.{Fields, IsReader, fields};

    ghost Value = { Fields };

    ghost view = { λ r. fields r.last r.blocks };

    ghost invariant = { λ r. IsReader (fields r.last r.blocks) };
}

impl BlockReader {
    /// Makes a reader of the block with this number, counted from 1. The reader allocates memory only where
    /// this block's size line ends, in [`feed`](BlockReader::feed).
    pub fn new(alloc: Global, layout: Layout, block: usize) -> BlockReader
        requires some { 1 ≤ block }
        requires few { block ≤ MOST_BLOCKS }
        ensures has_read { HasRead result [] }
        ensures layout { result.layout ≡ layout }
        ensures wanted { result.wanted ≡ block }
        ensures live { live_test result.phase ≡ true }
    {
        BlockReader {
            alloc,
            last: Line::new(),
            blocks: Blocks::new(layout, block),
        }
    }

    /// How many times of the wanted block were read and stored, up to the fault if there was one. Apart from
    /// these times, the reader keeps the number that is being read and a fixed number of fields. After a failed
    /// allocation the count is 0.
    pub fn held(&self) -> usize
        ensures held { result ≡ self.now.held }
        ensures few { (text : List ℕ) → HasRead self.now text
            → HoldsFew self.now.layout self.now.wanted text result }
        ensures memory { self.now.phase ≡ Phase.Rejected LayoutFault.Memory → result ≡ 0 }
    {
        self.blocks.held
    }

    /// Reads a piece of the input, up to the end of the wanted block. Once this block has ended, it uses no
    /// more bytes. After a fault every call returns the same fault.
    ///
    /// The error is the first fault at a byte of the input, [`TooLong`](LayoutFault::TooLong) included, or
    /// [`Memory`](LayoutFault::Memory) if the allocation failed. After a failed allocation `HasRead` holds
    /// for no text at all.
    pub fn feed(&mut self, piece: &[u8]) -> Result<Progress, LayoutFault>
        ensures idle { live_test self.old.phase ≡ false
            → (result ≡ progress_of self.old.phase 0) × (self.new ≡ self.old) }
        ensures whole { IfOk result (λ progress. progress.done ≡ false → progress.used ≡ length piece.now) }
        ensures stays { IfErr result (λ fault. self.new.phase ≡ Phase.Rejected fault) }
        ensures nowhere { result ≡ Err LayoutFault.Memory → (text : List ℕ) → ¬ HasRead self.new text }
        ensures few { (text : List ℕ) → HasRead self.old text
            → HoldsFew self.old.layout self.old.wanted (text ++ piece.now) self.new.held }
        ensures moved { IfOk result (λ progress. self.new.digits.offset ≡ self.old.digits.offset + progress.used) }
        ensures meets { (text : List ℕ) → HasRead self.old text
            → FeedMeets self.old text piece.now result self.new }
    {
        self.blocks.feed(self.alloc, &mut self.last, piece)
    }

    /// Returns the instance, if the input may end here. The end of the input ends the last number and the last
    /// line. The error is the fault of the whole input, or the one that [`feed`](BlockReader::feed) has returned.
    #[tactic(auto, unfolding(crate::specs::Private::Step::line_ended))]
    pub fn finish(self) -> Result<Instance, LayoutFault>
        ensures rejected { (fault : LayoutFault) → self.phase ≡ Phase.Rejected fault → result ≡ Err fault }
        ensures meets { (text : List ℕ) → HasRead self text → FinishMeets self text result }
    {
        let mut blocks = self.blocks;
        match blocks.validate_end(self.last) {
            Some(fault) => Err(fault),
            None => {
                let instance = blocks.instance;
                match instance {
                    Some(instance) => Ok(instance),
                    // The input may end here only after the last time of the wanted block.
                    None => unreachable!(),
                }
            }
        }
    }
}

/// The greatest number of bytes that are read from a source at once. After the byte that ends the wanted block
/// or has a fault, no more is read than the rest of its piece.
pub const PIECE: usize = 4096;

/// Reads one block of an instance file, counted from 1, up to its end.
///
/// The error is [`Read`](LayoutFault::Read) if a read failed, [`Memory`](LayoutFault::Memory) if the allocation
/// failed, and else the fault of the input. A failed read is reported only where the source has not reported
/// its end before.
pub fn read_block<R: Source>(
    alloc: Global,
    reader: &mut R,
    layout: Layout,
    block: usize,
) -> Result<Instance, LayoutFault>
    requires some { 1 ≤ block }
    requires few { block ≤ MOST_BLOCKS }
    requires working { R.has_failed reader.old ≡ false }
    ensures file { IfOk result (λ instance.
        IfSome (R.left reader.old) (λ bytes. IsInstanceFile limits layout bytes block instance)) }
    ensures rejected { IfErr result (λ fault. fault ≢ LayoutFault.Read → fault ≢ LayoutFault.Memory
        → IfSome (R.left reader.old) (λ bytes. RejectsInstance layout bytes block fault)) }
    ensures read { result ≡ Err LayoutFault.Read ↔ (R.has_failed reader.new ≡ true) }
    ensures before_end { result ≡ Err LayoutFault.Read → R.has_ended reader.new ≡ R.has_ended reader.old }
    ensures no_seed { result ≢ Err LayoutFault.SeedRange }
    ensures as_far { IfSome (R.left reader.old)
        (λ bytes. ReadsAsFar layout block bytes (R.left reader.new) (result_err result)) }
{
    let mut taker = BlockReader::new(alloc, layout, block);
    let mut buf = [0; PIECE];
    'pieces: loop {
        let Some(n) = reader.read(&mut buf) else {
            return Err(LayoutFault::Read);
        };
        if n == 0 {
            return taker.finish();
        }
        let progress = match taker.feed(&buf[..n]) {
            Ok(progress) => progress,
            Err(fault) => return Err(fault),
        };
        if progress.done {
            return taker.finish();
        }
    }
}
