//! A generator whose random words are known in advance.
ghost use Rattle.std.specs.Prelude.{ℕ, ◌+◌, ◌%◌, ◌^◌};
ghost use Rattle.rand_core.specs.Steps.{stream_of, steps_u32};

use rand_core::Rng;
use rand_core::utils::{self, NextWord};
use std::marker::Model;

/// A generator whose words of 32 bits increase by a fixed step, modulo 2^32.
#[derive(Drop)]
pub struct Counting {
    word: u32,
    by: u32,
}

impl Counting {
    /// Returns a generator whose first word is `first`, and whose words increase by `by`.
    pub fn new(first: u32, by: u32) -> Counting {
        Counting { word: first, by }
    }
}

impl Model for Counting {
    ghost Value = { ℕ × ℕ };

    ghost view = { λ a. (a.word, a.by) };
}

impl NextWord<u32> for Counting {
    ghost step = { λ s. (s.0, ((s.0 + s.1) % 2 ^ 32, s.1)) };

    fn next_word(&mut self) -> u32 {
        let word = self.word;
        self.word = word.wrapping_add(self.by);
        word
    }
}

impl Rng for Counting {
    ghost stream = { stream_of (steps_u32 (λ s. (s.0, ((s.0 + s.1) % 2 ^ 32, s.1)))) };

    fn next_u32(&mut self) -> u32 {
        self.next_word()
    }

    fn next_u64(&mut self) -> u64 {
        utils::next_u64_via_u32(self)
    }

    fn fill_bytes(&mut self, dst: &mut [u8]) {
        utils::fill_bytes_via_u32(self, dst)
    }
}
