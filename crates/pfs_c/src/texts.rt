//! Instance files and order files in memory, read and written for C.
ghost use Rattle.std.specs.Prelude.{◌≡◌};
ghost use Rattle.pfs_c.specs.Texts.{layout_named};

mod bytes;
mod reading;
mod writing;

use pfs_base::Notes;
use pfs_layout::Layout;

/// The struct `pfs_block` of C: what the size line of a block says.
#[repr(C)]
#[derive(Clone, Copy)]
pub struct PfsBlock {
    /// The number of jobs.
    pub jobs: usize,
    /// The number of machines.
    pub machines: usize,
    /// The notes, which are 0 in the layout of the OR-Library.
    pub notes: Notes,
}

// The layout that a number names: 0 is Taillard's, and 1 that of the OR-Library.
fn layout_of(number: u32) -> Option<Layout>
    ensures { result ≡ layout_named number }
{
    match number {
        0 => Some(Layout::Taillard),
        1 => Some(Layout::OrLib),
        _ => None,
    }
}
