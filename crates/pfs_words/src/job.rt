//! Jobs: what a command line asks the program to do.
ghost use Rattle.std.specs.Prelude.{◌≡◌, IfOk};

use crate::solve_options::SolveOptions;
use pfs_layout::Layout;
use std::alloc::{AllocError, Global};
use std::marker::Model;

/// The path of a file. Contracts see it as the list of its bytes.
#[derive(Debug, Drop)]
pub struct PathText {
    text: String,
}

impl Model for PathText {
    ghost use Rattle.std.specs.Prelude.{List, ℕ, string_bytes};

    ghost Value = { List ℕ };

    ghost view = { λ path. string_bytes path.text };
}

impl PathText {
    /// Returns a path that owns a copy of this text, or an error if the allocation of the copy fails.
    pub(crate) fn new(alloc: Global, text: &str) -> Result<PathText, AllocError>
        ensures { IfOk result (λ path. path ≡ text.now) }
    {
        let text = String::from_str(alloc, text)?;
        Ok(PathText { text })
    }

    /// Returns the path as text.
    pub fn as_str(&self) -> &str
        ensures { result.now ≡ self.now }
    {
        self.text.as_str()
    }
}

/// What a command line asks the program to do. `block` is a block's number in the instance file, from 1.
#[derive(Debug, Drop)]
pub enum Job {
    /// Print the makespan of the jobs in the order of their numbers.
    Value {
        layout: Layout,
        block: usize,
        /// `None` means standard input.
        file: Option<PathText>,
    },
    /// Search for an order with a low makespan and print it.
    Solve {
        layout: Layout,
        block: usize,
        options: SolveOptions,
        file: PathText,
    },
    /// Compare an order file with its instance and print its makespan, or its fault.
    Check {
        layout: Layout,
        block: usize,
        file: PathText,
        order_file: PathText,
    },
    /// Print the time table of an order file.
    Table {
        layout: Layout,
        block: usize,
        file: PathText,
        order_file: PathText,
    },
    /// Print the instance in another layout.
    Convert {
        source: Layout,
        target: Layout,
        block: usize,
        file: PathText,
    },
    /// Print an instance from Taillard's generator (1993).
    Generate {
        jobs: usize,
        machines: usize,
        seed: u64,
    },
}
