//! How passes over tables pay for the cells that they compute.
ghost use Rattle.std.specs.Prelude.{◌≡◌, ◌≤◌};

use std::marker::Model;

/// Cells that a bench has counted, for a pass that computes them. It can't be dropped or copied: the pass spends it.
pub struct Permit {
    cells: u64,
}

impl Model for Permit {
    ghost use Rattle.std.specs.Prelude.{ℕ};

    ghost Value = { ℕ };

    ghost view = { λ a. a.cells };
}

impl Permit {
    /// A permit for cells that were counted.
    #[inline(always)]
    pub(crate) fn new(cells: u64) -> Permit
        ensures { result ≡ cells }
    {
        Permit { cells }
    }

    /// Spends the permit on a table.
    #[inline(always)]
    pub fn spend(self) {
        let Permit { cells: _ } = self;
    }

    /// Spends the permit on numbers, of which one may become a length.
    #[inline(always)]
    pub fn pay(self) -> Paid
        requires { 1 ≤ self }
        ensures { result ≡ 0 }
    {
        self.spend();
        Paid { number: 0 }
    }
}

/// A number that was paid for: only a pass that spends a permit makes one.
#[derive(Drop)]
pub struct Paid {
    number: u64,
}

impl Model for Paid {
    ghost use Rattle.std.specs.Prelude.{ℕ};

    ghost Value = { ℕ };

    ghost view = { λ a. a.number };
}

impl Paid {
    /// Another number that the same pass has computed, in place of this one.
    #[inline(always)]
    pub fn with(self, number: u64) -> Paid
        ensures { result ≡ number }
    {
        Paid { number }
    }

    /// The number.
    #[inline(always)]
    pub fn number(&self) -> u64
        ensures { result ≡ self.now }
    {
        self.number
    }
}
