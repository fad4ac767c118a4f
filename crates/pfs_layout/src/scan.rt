//! The line that is being read, and what one more byte changes in it. Its parts have no padding, so that adding
//! a byte takes a few instructions.
ghost use Rattle.std.specs.Prelude.{◌≡◌, ◌<◌, ◌≤◌, ◌&&◌, ◌||◌, ◌==◌, not, true, false, ◌+◌, ◌-◌, ◌*◌, ℕ, [], min, None};
ghost use Rattle.std.specs.Prelude.{if◌then◌else◌};
ghost use Rattle.pfs_layout.specs.Lines.{is_digit as digit_test, is_blank as blank_test, is_word_byte as word_test};
ghost use Rattle.pfs_layout.specs.Reader.{FollowsLine};
ghost use Rattle.pfs_layout.specs.Private.Step.{Pushes, has_numbers_alone, open_number};

use pfs_base::{GREATEST_NOTE, LONGEST_INPUT};

/// The value that is kept for every greater number. It is itself greater than every number that is accepted.
pub const CEILING: u64 = GREATEST_NOTE as u64 + 1;

/// The byte that ends a line.
pub const LINE_END: u8 = 10;

/// A space.
pub const SPACE: u8 = 32;

/// A digit from `0` to `9`.
#[inline(always)]
pub fn is_digit(b: u8) -> bool
    ensures { result ≡ digit_test b }
{
    48 <= b && b <= 57
}

/// A space, a tab or a carriage return.
#[inline(always)]
pub fn is_blank(b: u8) -> bool
    ensures { result ≡ blank_test b }
{
    b == 32 || b == 9 || b == 13
}

/// The unfinished number: the digits that no byte has ended yet.
#[derive(Clone, Copy)]
pub struct Digits {
    /// The offset of the next byte.
    pub offset: usize,
    /// The offset of the number's first digit, or that of the next byte if there is no such number.
    pub first: usize,
    /// The number's value, at most the ceiling, or 0 if there is no such number.
    pub value: u64,
}

/// Which kinds of bytes the line has so far.
#[derive(Clone, Copy)]
pub struct Kinds {
    pub has_digit: bool,
    pub has_word: bool,
}

impl Digits {
    /// The digits after one more byte.
    #[inline(always)]
    pub fn after(self, b: u8) -> Digits
        requires offset { self.offset < LONGEST_INPUT }
        requires value { self.value ≤ CEILING }
        ensures offset { result.offset ≡ self.offset + 1 }
        ensures first { result.first ≡ (if digit_test b then self.first else self.offset + 1) }
        ensures value { result.value ≡ (if digit_test b then min CEILING (self.value * 10 + (b - 48)) else 0) }
    {
        let offset = self.offset + 1;
        let digit = is_digit(b);
        Digits {
            offset,
            first: if digit { self.first } else { offset },
            value: if digit {
                (self.value * 10 + u64::from(b - 48)).min(CEILING)
            } else {
                0
            },
        }
    }

    /// The unfinished number, if there is one.
    #[inline(always)]
    pub fn number(self) -> Option<Number>
        ensures { result ≡ open_number self }
    {
        if self.first == self.offset {
            None
        } else {
            Some(Number {
                value: self.value,
                first: self.first,
            })
        }
    }
}

impl Kinds {
    /// The kinds of bytes after one more byte.
    #[inline(always)]
    pub fn after(self, b: u8) -> Kinds
        ensures digit { result.has_digit ≡ (digit_test b || (not (b == 10) && self.has_digit)) }
        ensures word { result.has_word ≡ (not (b == 10) && (self.has_word || not (digit_test b || blank_test b))) }
    {
        let digit = is_digit(b);
        let ends = b == LINE_END;
        Kinds {
            has_digit: digit || (!ends && self.has_digit),
            has_word: !ends && (self.has_word || !(digit || is_blank(b))),
        }
    }

    /// Whether the line is a number line: it has a digit and no word byte.
    pub fn is_number_line(self) -> bool
        ensures { result ≡ has_numbers_alone self }
    {
        self.has_digit && !self.has_word
    }
}

/// The line that is being read.
#[derive(Clone, Copy)]
pub struct Line {
    pub digits: Digits,
    pub kinds: Kinds,
}

/// A number that has ended: its value, at most the ceiling, and the offset of its first digit.
#[derive(Clone, Copy)]
pub struct Number {
    pub value: u64,
    pub first: usize,
}

impl Line {
    /// The first line, before its first byte.
    #[tactic(auto, unfolding(crate::specs::Lines::open_part))]
    pub fn new() -> Line
        ensures { FollowsLine result [] }
    {
        Line {
            digits: Digits {
                offset: 0,
                first: 0,
                value: 0,
            },
            kinds: Kinds {
                has_digit: false,
                has_word: false,
            },
        }
    }

    /// Adds a byte. The parts are set one by one: the padding after the flags is never copied.
    #[inline(always)]
    pub fn push(&mut self, b: u8)
        requires offset { self.old.digits.offset < LONGEST_INPUT }
        requires value { self.old.digits.value ≤ CEILING }
        ensures { Pushes self.old b self.new }
    {
        self.digits = self.digits.after(b);
        self.kinds = self.kinds.after(b);
    }

    /// Adds a digit.
    #[inline(always)]
    pub fn push_digit(&mut self, b: u8)
        requires offset { self.old.digits.offset < LONGEST_INPUT }
        requires value { self.old.digits.value ≤ CEILING }
        requires digit { digit_test b ≡ true }
        ensures value { self.new.digits.value ≡ min CEILING (self.old.digits.value * 10 + (b - 48)) }
        ensures word { self.new.kinds.has_word ≡ self.old.kinds.has_word }
        ensures pushes { Pushes self.old b self.new }
    {
        self.digits.offset += 1;
        self.digits.value = (self.digits.value * 10 + u64::from(b - 48)).min(CEILING);
        self.kinds.has_digit = true;
    }

    /// Adds a blank.
    #[inline(always)]
    pub fn push_blank(&mut self)
        requires { self.old.digits.offset < LONGEST_INPUT }
        ensures digits { self.new.digits ≡ record {
          offset = self.old.digits.offset + 1;
          first = self.old.digits.offset + 1;
          value = 0;
        } }
        ensures kinds { self.new.kinds ≡ self.old.kinds }
        ensures pushes { (b : ℕ) → blank_test b ≡ true → Pushes self.old b self.new }
    {
        let offset = self.digits.offset + 1;
        self.digits = Digits {
            offset,
            first: offset,
            value: 0,
        };
    }

    /// Adds a word byte. On a line that has one, a blank has the same effect.
    #[inline(always)]
    pub fn push_word_byte(&mut self)
        requires { self.old.digits.offset < LONGEST_INPUT }
        ensures empty { open_number self.new.digits ≡ None }
        ensures kinds { self.new.kinds ≡ record { has_digit = self.old.kinds.has_digit; has_word = true } }
        ensures pushes { (b : ℕ) → word_test b ≡ true → Pushes self.old b self.new }
        ensures blank { (b : ℕ) → blank_test b ≡ true → self.old.kinds.has_word ≡ true → Pushes self.old b self.new }
    {
        self.push_blank();
        self.kinds.has_word = true;
    }
}
