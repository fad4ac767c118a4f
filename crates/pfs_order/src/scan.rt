//! The pieces of an order file: fixed words and numerals.
ghost use Rattle.std.specs.Prelude.{◌≡◌, ◌<◌, ◌≤◌, ◌^◌, length, drop, IfOk, IfSome};
ghost use Rattle.std.specs.Option.{ForSome};
ghost use Rattle.pfs_order.specs.Private.Reading.{Gives, word_at, numeral_at};
ghost use Rattle.pfs_order.specs.Private.Reading as reading;

use crate::fault::OrderFault;

/// The offset after a word that begins at an offset. The fault has the offset of the first byte that differs
/// or is missing.
#[tactic(auto, using(crate::proofs::CodeLemmas::word_steps), unfolding(crate::specs::Private::Reading::word_at))]
pub(crate) fn word(text: &[u8], at: usize, word: &[u8]) -> Result<usize, OrderFault>
    requires { at ≤ length text.now }
    ensures { Gives text.now (λ next. (tt, next)) result (word_at word.now (drop at text.now)) }
{
    let mut next = at;
    for byte in word {
        if next == text.len() || text[next] != *byte {
            return Err(OrderFault::Syntax { offset: next });
        }
        next += 1;
    }
    Ok(next)
}

/// The value of a numeral without leading zeros that begins at an offset, and the offset after the byte
/// `end`, which ends the numeral. The value is from `least` to `most`.
#[tactic(auto, using(crate::proofs::CodeLemmas::numeral_steps), unfolding(crate::specs::Private::Reading::numeral_on))]
pub(crate) fn numeral(
    text: &[u8],
    at: usize,
    least: u64,
    most: u64,
    end: u8,
) -> Result<(u64, usize), OrderFault>
    requires at { at ≤ length text.now }
    requires high { most < 10 ^ 18 }
    ensures read { Gives text.now (λ r. r) result (numeral_at least most end (drop at text.now)) }
    ensures in_range { IfOk result (λ r. (least ≤ r.0) × (r.0 ≤ most)) }
{
    let mut number = None;
    for next in at..text.len() {
        let byte = text[next];
        if let Some(read) = ended(number, byte, end) {
            return Ok((read, next + 1));
        }
        match longer(number, byte, least, most) {
            Some(more) => number = Some(more),
            None => return Err(OrderFault::Syntax { offset: next }),
        }
    }
    Err(OrderFault::Syntax { offset: text.len() })
}

// The number, if this byte ends it.
fn ended(number: Option<u64>, byte: u8, end: u8) -> Option<u64>
    ensures { result ≡ reading.ended number byte end }
{
    if byte == end { number } else { None }
}

// The number with one more digit, if the byte is a digit that continues a numeral from `least` to `most`.
#[tactic(auto, using(crate::proofs::CodeLemmas::number_tests), unfolding(crate::specs::Private::Reading::longer))]
fn longer(number: Option<u64>, byte: u8, least: u64, most: u64) -> Option<u64>
    requires { ForSome number (λ n. n < 10 ^ 18) }
    ensures value { result ≡ reading.longer least most number byte }
    ensures in_range { IfSome result (λ n. (least ≤ n) × (n ≤ most)) }
{
    let n = with_digit(number, byte)?;
    if least <= n && n <= most {
        Some(n)
    } else {
        None
    }
}

// The number with one more digit, if the byte is a digit that continues a numeral: no digit follows 0.
#[tactic(auto, using(crate::proofs::CodeLemmas::number_tests), unfolding(crate::specs::Private::Reading::with_digit))]
fn with_digit(number: Option<u64>, byte: u8) -> Option<u64>
    requires { ForSome number (λ n. n < 10 ^ 18) }
    ensures { result ≡ reading.with_digit number byte }
{
    let digit = match byte {
        b'0'..=b'9' => u64::from(byte - b'0'),
        _ => return None,
    };
    match number {
        None => Some(digit),
        Some(0) => None,
        Some(n) => Some(n * 10 + digit),
    }
}
