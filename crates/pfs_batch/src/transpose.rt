//! Eight times of each of eight rows, turned so that each vector has the times on one machine.
ghost use Rattle.std.specs.Prelude.{◌≡◌, ℕ, ◌+◌, ◌<◌, ◌≤◌, [], length, slice_index};
ghost use Rattle.std.specs.List.{slice_index_or};
ghost use Rattle.pfs_batch.specs.Private.Lanes.{columns};

use std::simd::prelude::*;

// What shuffles take of two vectors, whose second one has the numbers from 8 on. LOW_K and HIGH_K take K numbers of the
// first vector and K of the second one by turns, from their first halves or from their last.
const LOW_1: [usize; 8] = [0, 8, 1, 9, 2, 10, 3, 11];

const HIGH_1: [usize; 8] = [4, 12, 5, 13, 6, 14, 7, 15];

const LOW_2: [usize; 8] = [0, 1, 8, 9, 2, 3, 10, 11];

const HIGH_2: [usize; 8] = [4, 5, 12, 13, 6, 7, 14, 15];

const LOW_4: [usize; 8] = [0, 1, 2, 3, 8, 9, 10, 11];

const HIGH_4: [usize; 8] = [4, 5, 6, 7, 12, 13, 14, 15];

// The times of a lane on eight machines, from the machine `first` on.
#[inline(always)]
fn load(rows: &[u16], starts: &[usize; 8], lane: usize, first: usize) -> u16x8
    requires lane { lane < 8 }
    requires fits { slice_index starts.now lane + first + 8 ≤ length rows.now }
    ensures length { length result ≡ 8 }
    ensures each { (k : ℕ) → k < 8
        → slice_index result k ≡ slice_index rows.now (slice_index starts.now lane + first + k) }
{
    let at = starts[lane] + first;
    u16x8::from_slice(&rows[at..at + 8])
}

// Eight vectors, of which vector k has number k of each of these.
#[inline(always)]
fn transposed(
    a: u16x8,
    b: u16x8,
    c: u16x8,
    d: u16x8,
    e: u16x8,
    f: u16x8,
    g: u16x8,
    h: u16x8,
) -> [u16x8; 8]
    requires abcd { (length a ≡ 8) × (length b ≡ 8) × (length c ≡ 8) × (length d ≡ 8) }
    requires efgh { (length e ≡ 8) × (length f ≡ 8) × (length g ≡ 8) × (length h ≡ 8) }
    ensures { result ≡ columns a b c d e f g h }
{
    let ab = a.shuffle(b, LOW_1);
    let ab_high = a.shuffle(b, HIGH_1);
    let cd = c.shuffle(d, LOW_1);
    let cd_high = c.shuffle(d, HIGH_1);
    let ef = e.shuffle(f, LOW_1);
    let ef_high = e.shuffle(f, HIGH_1);
    let gh = g.shuffle(h, LOW_1);
    let gh_high = g.shuffle(h, HIGH_1);
    let p = ab.shuffle(cd, LOW_2);
    let q = ab.shuffle(cd, HIGH_2);
    let r = ab_high.shuffle(cd_high, LOW_2);
    let s = ab_high.shuffle(cd_high, HIGH_2);
    let t = ef.shuffle(gh, LOW_2);
    let u = ef.shuffle(gh, HIGH_2);
    let v = ef_high.shuffle(gh_high, LOW_2);
    let w = ef_high.shuffle(gh_high, HIGH_2);
    [
        p.shuffle(t, LOW_4),
        p.shuffle(t, HIGH_4),
        q.shuffle(u, LOW_4),
        q.shuffle(u, HIGH_4),
        r.shuffle(v, LOW_4),
        r.shuffle(v, HIGH_4),
        s.shuffle(w, LOW_4),
        s.shuffle(w, HIGH_4),
    ]
}

/// The times of eight jobs, which begin at `starts`, on eight machines: a vector for each machine.
#[inline(always)]
pub fn eight_of(rows: &[u16], starts: &[usize; 8], first: usize) -> [u16x8; 8]
    requires { (lane : ℕ) → lane < 8 → slice_index starts.now lane + first + 8 ≤ length rows.now }
    ensures lengths { (k : ℕ) → k < 8 → length (slice_index_or result k []) ≡ 8 }
    ensures times { (k lane : ℕ) → k < 8 → lane < 8 → slice_index_or (slice_index_or result k []) lane 0
        ≡ slice_index rows.now (slice_index starts.now lane + first + k) }
{
    let a = load(rows, starts, 0, first);
    let b = load(rows, starts, 1, first);
    let c = load(rows, starts, 2, first);
    let d = load(rows, starts, 3, first);
    let e = load(rows, starts, 4, first);
    let f = load(rows, starts, 5, first);
    let g = load(rows, starts, 6, first);
    let h = load(rows, starts, 7, first);
    transposed(a, b, c, d, e, f, g, h)
}
