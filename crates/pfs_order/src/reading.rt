//! Reading an order file.
ghost use Rattle.std.specs.Prelude.{◌≡◌, ℕ, ◌+◌, ◌-◌, ◌<◌, ◌≤◌, ◌^◌, true, false, List, [], ◌∷◌, ◌++◌, length, map};
ghost use Rattle.std.specs.Prelude.{take};
ghost use Rattle.std.specs.Prelude.{drop, Contains, IfOk, IfErr, IfSome, OnOk, OnErr, Option};
ghost use Rattle.std.specs.Io.KnownBytes.{Consumes, IsAtEnd};
ghost use Rattle.std.specs.Result.{result_err};
ghost use Rattle.pfs_order.specs.OrderFile.{IsOrderFile, RejectsOrder, RejectsUnlessFailed, IsUnlessFailed};
ghost use Rattle.pfs_order.specs.OrderFile.{ReadsOrderAsFar};
ghost use Rattle.pfs_order.specs.Private.Reading.{Gives, Orders, ValidatesText, FillsBelow, IsHead, version_at};
ghost use Rattle.pfs_order.specs.Private.Reading.{first_line_at, job_end, jobs_at, makespan_at, take_job};
ghost use Rattle.pfs_order.specs.Sequence.{StatedOrder};
ghost use Rattle.pfs_order.specs.declared.fault.OrderFault.{OrderFault};

use crate::fault::OrderFault;
use crate::file::OrderFile;
use crate::order::Order;
use crate::scan::{numeral, word};
use crate::seq::Seq;
use pfs_base::{LONGEST_ORDER_FILE, MOST_JOBS, MOST_MACHINES, Source};
use std::alloc::Global;

/// Room for the longest order file and one more byte, which shows that the input is longer.
const ROOM: usize = LONGEST_ORDER_FILE + 1;

/// The greatest value of a job numeral, which has at most nine digits.
const GREATEST_JOB: u64 = 999_999_999;

/// The greatest value of a makespan numeral, which has at most eighteen digits.
const GREATEST_MAKESPAN: u64 = 999_999_999_999_999_999;

// The versions of order files, which differ in their first lines.
#[derive(Clone, Copy)]
enum Version {
    One,
    Two,
}

// What the first line states: the number of jobs and, in version 2, the number of machines. The text
// continues after the line at `end`.
#[derive(Clone, Copy)]
struct Head {
    jobs: usize,
    machines: Option<usize>,
    end: usize,
}

/// Reads an order file of version 1 or 2, which must be all that is left of the input.
///
/// A failed read, and byte `LONGEST_ORDER_FILE` + 1, are reported as they come. Then come a syntax fault of the
/// whole text, failed memory allocation, and the first wrong job from the left; at each place, out of range is
/// reported before repeated. A failed read is reported only if no earlier read reported the end of the source.
///
/// The bytes are kept on the stack. The only memory that is allocated is that of the order.
pub fn read_order<R: Source>(alloc: Global, reader: &mut R) -> Result<OrderFile, OrderFault>
    requires { R.has_failed reader.old ≡ false }
    ensures accepted { IfOk result (λ file.
        IfSome (R.left reader.old) (λ input. IsOrderFile input file)) }
    ensures rejected { IfErr result (λ fault.
        IfSome (R.left reader.old) (λ input. RejectsUnlessFailed input fault)) }
    ensures accepts { IfSome (R.left reader.old) (λ input. (file : StatedOrder) →
        IsOrderFile input file → IsUnlessFailed result (Ok file)) }
    ensures rejects { IfSome (R.left reader.old) (λ input. (fault : OrderFault) →
        RejectsOrder input fault → IsUnlessFailed result (Err fault)) }
    ensures ended { OnOk result (IsAtEnd (R.left reader.new)) }
    ensures reads { IfSome (R.left reader.old) (λ input.
        ReadsOrderAsFar input (R.left reader.new) (result_err result)) }
    ensures failed { result ≡ Err OrderFault.Read → R.has_failed reader.new ≡ true }
    ensures working { R.has_failed reader.new ≡ true → result ≡ Err OrderFault.Read }
    ensures before_end { result ≡ Err OrderFault.Read → R.has_ended reader.new ≡ R.has_ended reader.old }
{
    let mut buffer = [0; ROOM];
    let filled = fill(reader, &mut buffer)?;
    if filled > LONGEST_ORDER_FILE {
        return Err(OrderFault::TooLong);
    }
    parse(alloc, &buffer[..filled])
}

// Reads to the end of the input or of the buffer, and returns how many bytes were read.
fn fill<R: Source>(reader: &mut R, buffer: &mut [u8]) -> Result<usize, OrderFault>
    requires { R.has_failed reader.old ≡ false }
    ensures within { IfOk result (λ filled. filled ≤ length buffer.new) }
    ensures bytes { IfOk result (λ filled.
        Consumes (R.left reader.old) (R.left reader.new) (take filled buffer.new)) }
    ensures end { IfOk result (λ filled. filled < length buffer.new → IsAtEnd (R.left reader.new)) }
    ensures working { OnOk result (R.has_failed reader.new ≡ false) }
    ensures failed { OnErr result (R.has_failed reader.new ≡ true) }
    ensures fault { IfErr result (λ fault. fault ≡ OrderFault.Read) }
    ensures stopped { OnErr result (FillsBelow (length buffer.new) (R.left reader.old) (R.left reader.new)) }
    ensures before_end { OnErr result (R.has_ended reader.new ≡ R.has_ended reader.old) }
{
    let mut filled = 0;
    while filled < buffer.len() {
        let n = match reader.read(&mut buffer[filled..]) {
            Some(n) => n,
            None => return Err(OrderFault::Read),
        };
        if n == 0 {
            return Ok(filled);
        }
        filled += n;
    }
    Ok(filled)
}

// Parses a whole text as an order file.
#[tactic(auto, unfolding(crate::specs::Private::Reading::read_text, crate::specs::Private::Reading::lines_at))]
fn parse(alloc: Global, text: &[u8]) -> Result<OrderFile, OrderFault>
    ensures { ValidatesText text.now result }
{
    let head = first_line(text)?;
    let mut numbers = [0; MOST_JOBS];
    let row = &mut numbers[..head.jobs];
    let start = jobs_line(text, head, row)?;
    let (makespan, end) = makespan_line(text, start)?;
    if end < text.len() {
        return Err(OrderFault::Syntax { offset: end });
    }
    let order = order_of(alloc, row)?;
    Ok(OrderFile::new(order, head.machines, makespan))
}

// What the first line states.
#[tactic(auto, unfolding(crate::specs::Private::Reading::first_line_at))]
fn first_line(text: &[u8]) -> Result<Head, OrderFault>
    ensures read { Gives text.now (λ head. ((head.jobs, head.machines), head.end)) result (first_line_at text.now) }
    ensures in_range { IfOk result (λ head. IsHead head.jobs head.machines) }
{
    let (version, start) = version_of(text)?;
    match version {
        Version::One => {
            let (jobs, end) = numeral(text, start, 1, MOST_JOBS as u64, b'\n')?;
            Ok(Head {
                jobs: jobs as usize,
                machines: None,
                end,
            })
        }
        Version::Two => {
            let (jobs, next) = numeral(text, start, 1, MOST_JOBS as u64, b' ')?;
            let (machines, end) = numeral(text, next, 1, MOST_MACHINES as u64, b'\n')?;
            Ok(Head {
                jobs: jobs as usize,
                machines: Some(machines as usize),
                end,
            })
        }
    }
}

// The version by which the first line begins, and the offset where its numbers begin.
#[tactic(auto, unfolding(crate::specs::Private::Reading::version_at, crate::specs::Private::Reading::version_end))]
fn version_of(text: &[u8]) -> Result<(Version, usize), OrderFault>
    ensures { Gives text.now (λ r. r) result (version_at text.now) }
{
    let at = word(text, 0, b"order")?;
    if at < text.len() && text[at] == b' ' {
        return Ok((Version::One, at + 1));
    }
    let start = word(text, at, b"2 ")?;
    Ok((Version::Two, start))
}

// Reads the numbers of the jobs into `numbers`, and returns the offset where the next line begins.
#[tactic(auto, using(crate::proofs::CodeLemmas::job_steps))]
fn jobs_line(text: &[u8], head: Head, numbers: &mut [u32]) -> Result<usize, OrderFault>
    requires start { head.end ≤ length text.now }
    requires room { length numbers.old ≡ head.jobs }
    ensures { Gives text.now (λ next. (numbers.new, next)) result (jobs_at head.jobs (drop head.end text.now)) }
{
    let mut at = head.end;
    for place in 0..head.jobs {
        let end = end_after(head.jobs - place - 1);
        let (number, next) = numeral(text, at, 0, GREATEST_JOB, end)?;
        numbers[place] = number as u32;
        at = next;
    }
    Ok(at)
}

// The byte after a job, by how many jobs follow it.
fn end_after(more: usize) -> u8
    ensures { result ≡ job_end more }
{
    match more {
        0 => b'\n',
        _ => b' ',
    }
}

// The makespan in the last line, and the offset after that line.
#[tactic(auto, unfolding(crate::specs::Private::Reading::makespan_at))]
fn makespan_line(text: &[u8], start: usize) -> Result<(u64, usize), OrderFault>
    requires { start ≤ length text.now }
    ensures read { Gives text.now (λ r. r) result (makespan_at (drop start text.now)) }
    ensures short { IfOk result (λ r. r.0 < 10 ^ 18) }
{
    let at = word(text, start, b"makespan ")?;
    numeral(text, at, 0, GREATEST_MAKESPAN, b'\n')
}

// The order of the jobs with these numbers, which count from 1.
#[tactic(auto, using(crate::proofs::JobOrders::order_steps))]
fn order_of(alloc: Global, numbers: &[u32]) -> Result<Order, OrderFault>
    requires some { 1 ≤ length numbers.now }
    requires few { length numbers.now ≤ MOST_JOBS }
    ensures { Orders numbers.now result }
{
    let mut seq = Seq::new(alloc, numbers.len())?;
    for number in numbers {
        add_job(&mut seq, *number)?;
    }
    match Order::from_seq(seq) {
        Ok(order) => Ok(order),
        Err(_) => unreachable!(),
    }
}

// Adds a job, whose number counts from 1, at the end of a sequence.
#[tactic(auto, using(crate::proofs::JobOrders::add_steps))]
fn add_job(seq: &mut Seq, number: u32) -> Result<(), OrderFault>
    ensures ok { OnOk result (take_job seq.old number ≡ Ok seq.new) }
    ensures err { IfErr result (λ fault. take_job seq.old number ≡ Err fault) }
{
    let place = seq.len();
    if number < 1 || number as usize > seq.size() {
        return Err(OrderFault::JobRange { place: place + 1 });
    }
    let job = number as usize - 1;
    if seq.has(job) {
        return Err(OrderFault::Repeated { place: place + 1 });
    }
    seq.insert_at(place, job);
    Ok(())
}
