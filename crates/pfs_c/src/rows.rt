//! Tables of heads and tails.
ghost use Rattle.std.specs.Prelude.{◌≡◌, ◌+◌, ◌*◌, ◌<◌, length};
ghost use Rattle.pfs_order.specs.Sequence.{IsSequence};
ghost use Rattle.pfs_c.specs.HeadsTails.{AreRowHeads, AreRowTails};
ghost use Rattle.pfs_c.specs.Private.Rows.{AreTails};

use pfs_base::heads::{add_head, end_after, times_of};
use pfs_base::{Instance, MOST_MACHINES};

/// Fills a table with the heads of a sequence.
pub(crate) fn fill_heads(instance: &Instance, sequence: &[u32], table: &mut [u64])
    requires sequence { IsSequence instance.now.shop.jobs sequence.now }
    requires long { length table.old ≡ length sequence.now * instance.now.shop.machines }
    ensures { AreRowHeads instance.now.shop sequence.now table.new }
{
    let machines = instance.machines();
    let mut heads = [0; MOST_MACHINES];
    for place in 0..sequence.len() {
        add_head(instance, sequence, place, &mut heads);
        let first = place * machines;
        table[first..first + machines].copy_from_slice(&heads[..machines]);
    }
}

/// Fills a table with the tails of a sequence.
pub(crate) fn fill_tails(instance: &Instance, sequence: &[u32], table: &mut [u64])
    requires sequence { IsSequence instance.now.shop.jobs sequence.now }
    requires long { length table.old ≡ length sequence.now * instance.now.shop.machines }
    ensures { AreRowTails instance.now.shop sequence.now table.new }
{
    let machines = instance.machines();
    let mut tails = [0; MOST_MACHINES];
    for place in (0..sequence.len()).rev() {
        add_tail(instance, sequence, place, &mut tails);
        let first = place * machines;
        table[first..first + machines].copy_from_slice(&tails[..machines]);
    }
}

// Adds the job at a place of a sequence to the tails of the jobs after it, as `add_head` adds one to heads.
#[inline(always)]
fn add_tail(instance: &Instance, sequence: &[u32], place: usize, tails: &mut [u64])
    requires sequence { IsSequence instance.now.shop.jobs sequence.now }
    requires place { place < length sequence.now }
    requires tails { AreTails instance.now.shop sequence.now (place + 1) tails.old }
    ensures { AreTails instance.now.shop sequence.now place tails.new }
{
    let times = times_of(instance, sequence[place] as usize);
    let mut after = 0;
    for machine in (0..instance.machines()).rev() {
        after = end_after(tails[machine], after, times[machine]);
        tails[machine] = after;
    }
}
