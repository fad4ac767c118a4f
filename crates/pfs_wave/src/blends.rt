//! Skews a sequence of rows: lane l of a skewed row comes from l rows back. Three blends do it, for the bits of a
//! lane's number: with the row before (bit 0), with the result of that two rows back (bit 1), and with the result of
//! both four rows back (bit 2).
ghost use Rattle.std.specs.Prelude.{◌≡◌, ℕ};
ghost use Rattle.pfs_wave.specs.Private.Blending.{Past, AreBlends, pushed, diagonal};

use crate::band::Stored;

/// What the blends need of the last rows: the last row, the results of the first blend for the last two rows, and the
/// results of the second blend for the last four.
#[derive(Drop)]
pub struct Blends<T: Stored> {
    before: T,
    pair_one: T,
    pair_two: T,
    four_one: T,
    four_two: T,
    four_three: T,
    four_four: T,
}

/// A skewed row, and what the blends of the next row need.
#[derive(Drop)]
pub struct Blended<T: Stored> {
    pub next: Blends<T>,
    pub row: T,
}

impl<T: Stored> Blends<T> {
    /// Before the first row: zeros.
    #[inline(always)]
    pub fn none() -> Blends<T>
        ensures { AreBlends T.lanes (λ back lane. 0) result }
    {
        let zero = T::zeros();
        Blends {
            before: zero,
            pair_one: zero,
            pair_two: zero,
            four_one: zero,
            four_two: zero,
            four_three: zero,
            four_four: zero,
        }
    }

    /// Skews one more row.
    #[inline(always)]
    pub fn push(self, now: T) -> Blended<T>
        ensures next { (past : Past) → AreBlends T.lanes past self
            → AreBlends T.lanes (pushed (T.lanes now) past) result.next }
        ensures row { (past : Past) → AreBlends T.lanes past self
            → T.lanes result.row ≡ diagonal (pushed (T.lanes now) past) }
    {
        let pair = now.odd_from(self.before);
        let four = pair.pairs_from(self.pair_two);
        let row = four.half_from(self.four_four);
        let next = Blends {
            before: now,
            pair_one: pair,
            pair_two: self.pair_one,
            four_one: four,
            four_two: self.four_one,
            four_three: self.four_two,
            four_four: self.four_three,
        };
        Blended { next, row }
    }
}
