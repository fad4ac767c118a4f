//! The blocks that a reader has read, and what one more byte changes in them.
ghost use Rattle.std.specs.Prelude.{◌≡◌, ◌≢◌, ◌+◌, ◌-◌, ◌*◌, ◌<◌, ◌≤◌, true, false, ◌==◌, ℕ, List, length, replicate};
ghost use Rattle.std.specs.Prelude.{Some, None, IfOk, IfErr, OnOk, OnErr, IfSome, option_map, is_some, if◌then◌else◌};
ghost use Rattle.pfs_layout.specs.Block.{is_within_limits, problem_of};
ghost use Rattle.std.specs.Prelude.{◌&&◌, not};
ghost use Rattle.pfs_layout.specs.Lines.{is_digit as digit_test, is_blank as blank_test, is_word_byte as word_test};
ghost use Rattle.pfs_layout.specs.Private.Step.{rejected, CanCount, with_problem_time, counted};
ghost use Rattle.pfs_layout.specs.Private.Step.{body_validated, number_ended, last_number_ended, no_numbers, stated_by};
ghost use Rattle.pfs_layout.specs.Private.Step.{size_validated, line_ended, mixed_met, after_byte, TakeMeets};
ghost use Rattle.pfs_layout.specs.Private.Step.{has_numbers_alone, end_fault, at_end, IsReady, LacksMemory};
ghost use Rattle.pfs_layout.specs.Private.Step.{stored, ReadsNumbers, TakenTo};
ghost use Rattle.pfs_layout.specs.Reader.{is_live as live_test, fields, HasRead, IsReader, FeedMeets, progress_of};

use crate::body::{Body, Due};
use crate::scan::{Kinds, LINE_END, Line, Number, SPACE, is_blank, is_digit};
use crate::size_line::{Size, SizeLine};
use crate::{Layout, LayoutFault};
use pfs_base::{BaseFault, Instance, LONGEST_INPUT, LONGEST_TIME};
use std::alloc::Global;

/// What is being read.
#[derive(Clone, Copy)]
pub enum Phase {
    /// The next block is sought.
    Seeking,
    /// A block has begun, and the line of its last number has not ended.
    Body,
    /// The wanted block has ended.
    Done,
    /// The input was rejected.
    Rejected(LayoutFault),
}

/// How many bytes of a piece a reader has used, from its start, and whether the wanted block has ended.
#[derive(Clone, Copy, Debug, PartialEq, Eq)]
pub struct Progress {
    pub used: usize,
    pub done: bool,
}

/// What a reader keeps, apart from the line that is being read.
#[derive(Drop)]
pub struct Blocks {
    pub layout: Layout,
    /// The number of the wanted block, from 1.
    pub wanted: usize,
    /// How many blocks are complete.
    pub complete: usize,
    /// The number of the line that is being read, from 1.
    pub line: usize,
    pub phase: Phase,
    pub size_line: SizeLine,
    pub body: Body,
    /// The instance of the wanted block, from the end of its size line on. Times that were not read yet are 0.
    pub instance: Option<Instance>,
    /// How many times of this instance were read.
    pub held: usize,
}

impl Blocks {
    /// A reader's blocks before the first byte. The wanted block is the one with this number, counted from 1.
    pub fn new(layout: Layout, wanted: usize) -> Blocks
        ensures layout { result.layout ≡ layout }
        ensures wanted { result.wanted ≡ wanted }
        ensures none { result ≡ record result {
          complete = 0;
          line = 1;
          phase = Phase.Seeking;
          size_line = no_numbers;
          instance = None;
          held = 0;
        } }
    {
        Blocks {
            layout,
            wanted,
            complete: 0,
            line: 1,
            phase: Phase::Seeking,
            size_line: SizeLine::new(),
            body: Body::new(layout, 1, 1),
            instance: None,
            held: 0,
        }
    }

    /// Rejects the input: from now on this fault is returned, and no further byte is used.
    #[cold]
    #[inline(never)]
    pub fn reject(&mut self, fault: LayoutFault)
        ensures { self.new ≡ rejected self.old fault }
    {
        self.phase = Phase::Rejected(fault);
    }

    /// Whether the reader needs more bytes.
    pub fn is_live(&self) -> bool
        ensures { result ≡ live_test self.now.phase }
    {
        match self.phase {
            Phase::Done | Phase::Rejected(_) => false,
            Phase::Seeking | Phase::Body => true,
        }
    }

    // Stores the next time of this body, if its block is the wanted one.
    #[inline(always)]
    fn store_time(&mut self, body: Body, time: u32)
        requires can { CanCount (record self.old { body = body }) }
        requires short { time ≤ LONGEST_TIME }
        ensures { self.new ≡ stored self.old body time }
    {
        if let Some(instance) = &mut self.instance {
            instance.set(body.job, body.machine, time);
            self.held += 1;
        }
    }

    // Counts a time that passed its check, and stores it if its block is the wanted one.
    #[inline(always)]
    fn count_time(&mut self, time: u32)
        requires can { CanCount self.old }
        requires some { self.old.body.validated < self.old.body.due }
        requires short { time ≤ LONGEST_TIME }
        ensures { self.new ≡ counted self.old Due.Time time }
    {
        self.store_time(self.body, time);
        self.body = self.body.after_time(self.layout);
    }

    // Checks a number of a body against what is due: counts it, or rejects the input.
    #[inline(always)]
    fn validate_body(&mut self, value: u64, first: usize)
        requires { CanCount self.old }
        ensures { self.new ≡ body_validated self.old value first }
    {
        match self.body.next_due(self.layout) {
            Due::Time if value <= u64::from(LONGEST_TIME) => self.count_time(value as u32),
            Due::Machine(machine) if value == machine as u64 => {
                self.body = self.body.after_machine();
            }
            due => self.reject(due.fault(first)),
        }
    }

    // Records a number outside a body, if a block is sought: its line may be a size line.
    #[inline(never)]
    #[tactic(auto, unfolding(crate::specs::Private::Step::number_ended))]
    fn end_other_number(&mut self, value: u64, first: usize)
        requires elsewhere { self.old.phase ≢ Phase.Body }
        requires ready { IsReady self.old }
        ensures { self.new ≡ number_ended self.old value first }
    {
        match self.phase {
            Phase::Seeking => self.size_line = self.size_line.with(value),
            Phase::Body | Phase::Done | Phase::Rejected(_) => {}
        }
    }

    // Ends a number, at a blank, a line end or the end of the input.
    #[inline(always)]
    #[tactic(auto, unfolding(crate::specs::Private::Step::number_ended))]
    fn end_number(&mut self, number: Number)
        requires ready { IsReady self.old }
        ensures { self.new ≡ number_ended self.old number.value number.first }
    {
        if let Phase::Body = self.phase {
            self.validate_body(number.value, number.first);
        } else {
            self.end_other_number(number.value, number.first);
        }
    }

    // Ends the unfinished number, if there is one, at a line end or at the end of the input.
    #[inline(always)]
    fn end_last_number(&mut self, number: Option<Number>)
        requires { IsReady self.old }
        ensures { self.new ≡ last_number_ended self.old number }
    {
        if let Some(number) = number {
            self.end_number(number);
        }
    }

    // Allocates the instance of a block that begins, if it is the wanted one.
    #[tactic(auto, using(crate::proofs::Reading::NumberSteps::idle_problem))]
    fn instance_for(&self, alloc: Global, stated: Size) -> Result<Option<Instance>, BaseFault>
        requires complete { self.now.complete < self.now.wanted }
        requires within { is_within_limits stated ≡ true }
        ensures made { IfOk result (λ instance. instance ≡ (if self.now.complete + 1 == self.now.wanted
            then Some (problem_of stated (λ job machine. 0))
            else None)) }
        ensures wanted { OnErr result (self.now.complete + 1 ≡ self.now.wanted) }
        ensures fault { IfErr result (λ fault. fault ≡ BaseFault.Memory) }
    {
        let wanted = self.wanted;
        if self.complete + 1 == wanted {
            let instance = Instance::new(alloc, stated.jobs, stated.machines, stated.notes)?;
            Ok(Some(instance))
        } else {
            Ok(None)
        }
    }

    // Ends a number line while a block is sought: its numbers begin a block, or the input is rejected. The line
    // counts from 1.
    #[inline(never)]
    fn end_size_line(&mut self, alloc: Global, size_line: SizeLine, line: usize)
        requires sought { self.old.phase ≡ Phase.Seeking }
        requires complete { self.old.complete < self.old.wanted }
        ensures ended { self.new.phase ≢ Phase.Rejected LayoutFault.Memory
            → self.new ≡ size_validated self.old line (stated_by self.old.layout size_line) }
        ensures memory { self.new.phase ≡ Phase.Rejected LayoutFault.Memory
            → LacksMemory self.old (size_validated self.old line (stated_by self.old.layout size_line)) self.new }
    {
        let stated = match size_line.stated(self.layout, line) {
            Ok(stated) => stated,
            Err(fault) => {
                self.reject(fault);
                return;
            }
        };
        match self.instance_for(alloc, stated) {
            Ok(instance) => {
                self.instance = instance;
                self.body = Body::new(self.layout, stated.jobs, stated.machines);
                self.phase = Phase::Body;
            }
            Err(_) => self.reject(LayoutFault::Memory),
        }
    }

    // Ends the line, at byte 10.
    #[tactic(auto, unfolding(crate::specs::Private::Step::line_ended))]
    fn end_line(&mut self, alloc: Global, is_number_line: bool)
        requires complete { self.old.complete < self.old.wanted }
        requires line { self.old.line ≤ LONGEST_INPUT + 1 }
        requires memory { self.old.phase ≢ Phase.Rejected LayoutFault.Memory }
        ensures ended { self.new.phase ≢ Phase.Rejected LayoutFault.Memory
            → self.new ≡ line_ended self.old is_number_line }
        ensures memory { self.new.phase ≡ Phase.Rejected LayoutFault.Memory
            → LacksMemory self.old (line_ended self.old is_number_line) self.new }
    {
        let line = self.line;
        let size_line = self.size_line;
        self.line = line + 1;
        self.size_line = SizeLine::new();
        match self.phase {
            Phase::Seeking => {
                if is_number_line {
                    self.end_size_line(alloc, size_line, line);
                }
            }
            Phase::Body if self.body.validated >= self.body.due => {
                let complete = self.complete + 1;
                self.complete = complete;
                self.phase = if complete == self.wanted {
                    Phase::Done
                } else {
                    Phase::Seeking
                };
            }
            Phase::Body | Phase::Done | Phase::Rejected(_) => {}
        }
    }

    // Rejects the input if this line, which the byte at this offset mixed, is one of a block.
    fn meet_mixed_line(&mut self, offset: usize)
        ensures { self.new ≡ mixed_met self.old.phase self.old offset }
    {
        if let Phase::Body = self.phase {
            self.reject(LayoutFault::MixedLine { offset });
        }
    }

    // Reads a byte that follows `last` and ends that line, mixes it or is a word byte.
    #[inline(always)]
    #[tactic(auto, using(crate::proofs::Reading::ByteSteps::keeps_last))]
    fn after(&mut self, alloc: Global, last: Line, b: u8)
        requires ready { IsReady self.old }
        requires digit { (digit_test b && not last.kinds.has_word) ≡ false }
        requires blank { blank_test b ≡ false }
        ensures well { self.new.phase ≢ Phase.Rejected LayoutFault.Memory → self.new ≡ after_byte self.old last b }
        ensures memory { self.new.phase ≡ Phase.Rejected LayoutFault.Memory
            → LacksMemory self.old (after_byte self.old last b) self.new }
    {
        if b == LINE_END {
            self.end_last_number(last.digits.number());
            self.end_line(alloc, last.kinds.is_number_line());
        } else if last.kinds.has_digit || is_digit(b) {
            self.meet_mixed_line(last.digits.offset);
        }
    }

    // What `feed` returns after it used this many bytes.
    #[inline(never)]
    fn progress(&self, used: usize) -> Result<Progress, LayoutFault>
        ensures { result ≡ progress_of self.now.phase used }
    {
        match self.phase {
            Phase::Done => Ok(Progress { used, done: true }),
            Phase::Rejected(fault) => Err(fault),
            Phase::Seeking | Phase::Body => Ok(Progress { used, done: false }),
        }
    }

    // Whether the line `last` is one of a body, and can have more numbers: it has no word byte, and its unfinished
    // number is within the limit of a time.
    fn reads_numbers(&self, last: Line) -> bool
        ensures { result ≡ true → ReadsNumbers (fields last self.now) }
    {
        match self.phase {
            Phase::Body => !last.kinds.has_word && last.digits.value <= u64::from(LONGEST_TIME),
            Phase::Seeking | Phase::Done | Phase::Rejected(_) => false,
        }
    }

    // Reads digits and spaces of a body in Taillard's layout. It stops at any other byte, at the end of a machine's
    // last time, and at a digit with which the number may be above the limit of a time. Returns how many bytes it has
    // read.
    #[inline(never)]
    fn take_times(&mut self, last: &mut Line, piece: &[u8]) -> usize
        requires layout { self.old.layout ≡ Layout.Taillard }
        requires numbers { ReadsNumbers (fields last.old self.old) }
        requires has_read { (text : List ℕ) × HasRead (fields last.old self.old) text }
        requires room { last.old.digits.offset + length piece.now ≤ LONGEST_INPUT }
        ensures within { result ≤ length piece.now }
        ensures taken { TakenTo (fields last.old self.old) (fields last.new self.new) piece.now result }
    {
        let start = last.digits.offset;
        // Local values, which the compiler can keep in registers.
        let mut line = *last;
        let mut body = self.body;
        let more = (body.due - body.validated).min(body.jobs - 1 - body.job);
        let last_job = body.job + more;
        for byte in piece {
            let b = *byte;
            if is_digit(b) {
                if line.digits.value >= u64::from(LONGEST_TIME / 10) {
                    break;
                }
                line.push_digit(b);
                continue;
            }
            if b != SPACE {
                break;
            }
            if let Some(number) = line.digits.number() {
                if body.job >= last_job {
                    break;
                }
                self.store_time(body, number.value as u32);
                body.validated += 1;
                body.job += 1;
            }
            line.push_blank();
        }
        self.body = body;
        *last = line;
        line.digits.offset - start
    }

    // The same for the OR-Library's layout. It also stops at the end of a number that isn't its machine's, and of a
    // job's last time.
    #[inline(never)]
    fn take_pairs(&mut self, last: &mut Line, piece: &[u8]) -> usize
        requires layout { self.old.layout ≡ Layout.OrLib }
        requires numbers { ReadsNumbers (fields last.old self.old) }
        requires has_read { (text : List ℕ) × HasRead (fields last.old self.old) text }
        requires room { last.old.digits.offset + length piece.now ≤ LONGEST_INPUT }
        ensures within { result ≤ length piece.now }
        ensures taken { TakenTo (fields last.old self.old) (fields last.new self.new) piece.now result }
    {
        let start = last.digits.offset;
        let mut line = *last;
        let mut body = self.body;
        for byte in piece {
            let b = *byte;
            if is_digit(b) {
                if line.digits.value >= u64::from(LONGEST_TIME / 10) {
                    break;
                }
                line.push_digit(b);
                continue;
            }
            if b != SPACE {
                break;
            }
            if let Some(number) = line.digits.number() {
                if body.validated >= body.due {
                    break;
                }
                if body.validated % 2 == 0 {
                    if number.value != body.machine as u64 {
                        break;
                    }
                } else {
                    if body.machine + 1 >= body.machines {
                        break;
                    }
                    self.store_time(body, number.value as u32);
                    body.machine += 1;
                }
                body.validated += 1;
            }
            line.push_blank();
        }
        self.body = body;
        *last = line;
        line.digits.offset - start
    }

    // Reads digits and spaces, if the line is one of a body. Returns how many bytes it has read.
    #[inline(always)]
    fn take_numbers(&mut self, last: &mut Line, piece: &[u8]) -> usize
        requires live { live_test self.old.phase ≡ true }
        requires has_read { (text : List ℕ) × HasRead (fields last.old self.old) text }
        requires room { last.old.digits.offset + length piece.now ≤ LONGEST_INPUT }
        ensures within { result ≤ length piece.now }
        ensures taken { TakenTo (fields last.old self.old) (fields last.new self.new) piece.now result }
    {
        if !self.reads_numbers(*last) {
            return 0;
        }
        match self.layout {
            Layout::Taillard => self.take_times(last, piece),
            Layout::OrLib => self.take_pairs(last, piece),
        }
    }

    // Reads a line that has a word byte and no digit, up to its end or to a digit. Returns how many bytes it has read.
    #[inline(never)]
    fn take_words(&self, last: &mut Line, piece: &[u8]) -> usize
        requires live { live_test self.now.phase ≡ true }
        requires has_read { (text : List ℕ) × HasRead (fields last.old self.now) text }
        requires room { last.old.digits.offset + length piece.now ≤ LONGEST_INPUT }
        ensures within { result ≤ length piece.now }
        ensures taken { TakenTo (fields last.old self.now) (fields last.new self.now) piece.now result }
    {
        if last.kinds.has_digit || !last.kinds.has_word || last.digits.number().is_some() {
            return 0;
        }
        let start = last.digits.offset;
        let mut line = *last;
        for byte in piece {
            let b = *byte;
            if is_digit(b) || b == LINE_END {
                break;
            }
            line.push_word_byte();
        }
        *last = line;
        line.digits.offset - start
    }

    // Reads bytes up to the end of the line, to a word byte of a line without a digit, or to a fault. Returns how many
    // bytes it has read.
    #[inline(never)]
    fn take_line(&mut self, alloc: Global, last: &mut Line, piece: &[u8]) -> usize
        requires live { live_test self.old.phase ≡ true }
        requires has_read { (text : List ℕ) × HasRead (fields last.old self.old) text }
        requires room { last.old.digits.offset + length piece.now ≤ LONGEST_INPUT }
        ensures within { result ≤ length piece.now }
        ensures some { 0 < length piece.now → 0 < result }
        ensures moved { last.new.digits.offset ≡ last.old.digits.offset + result }
        ensures on { live_test self.new.phase ≡ true
            → TakenTo (fields last.old self.old) (fields last.new self.new) piece.now result }
        ensures end { live_test self.new.phase ≡ false → (text : List ℕ) → HasRead (fields last.old self.old) text
            → TakeMeets (fields last.old self.old) text piece.now result (fields last.new self.new) }
    {
        let start = last.digits.offset;
        // Copied part by part: the padding after the flags is never copied.
        let mut line = Line {
            digits: last.digits,
            kinds: last.kinds,
        };
        // A byte that changes no block continues the loop by itself: so the compiler makes a short loop of each
        // such branch. Words and most numbers don't come here, and so blanks are first.
        for b in piece {
            let b = *b;
            if is_blank(b) {
                let number = line.digits.number();
                line.push_blank();
                if number.is_none() {
                    continue;
                }
                self.end_last_number(number);
                if !self.is_live() {
                    break;
                }
                continue;
            }
            if is_digit(b) && !line.kinds.has_word {
                line.push_digit(b);
                continue;
            }
            // The byte ends the line, mixes it or is a word byte.
            let before = line;
            line.push(b);
            self.after(alloc, before, b);
            if !line.kinds.has_digit || !self.is_live() {
                break;
            }
        }
        *last = line;
        line.digits.offset - start
    }

    // Reads bytes that follow `last` and are all within the limit of the input, up to the end of the wanted block
    // or to a fault.
    fn take(&mut self, alloc: Global, last: &mut Line, piece: &[u8])
        requires live { live_test self.old.phase ≡ true }
        requires has_read { (text : List ℕ) × HasRead (fields last.old self.old) text }
        requires room { last.old.digits.offset + length piece.now ≤ LONGEST_INPUT }
        ensures within { last.new.digits.offset ≤ last.old.digits.offset + length piece.now }
        ensures whole { live_test self.new.phase ≡ true
            → last.new.digits.offset ≡ last.old.digits.offset + length piece.now }
        ensures onward { last.old.digits.offset ≤ last.new.digits.offset }
        ensures meets { (text : List ℕ) → HasRead (fields last.old self.old) text
            → TakeMeets (fields last.old self.old) text piece.now
            (last.new.digits.offset - last.old.digits.offset) (fields last.new self.new) }
    {
        let mut at = 0;
        while at < piece.len() {
            at += self.take_numbers(last, &piece[at..]);
            at += self.take_words(last, &piece[at..]);
            at += self.take_line(alloc, last, &piece[at..]);
            if !self.is_live() {
                break;
            }
        }
    }

    /// Reads a piece that follows `last`, up to the end of the wanted block or to a fault. A byte beyond the
    /// limit of the input, before that end, is the fault `TooLong`.
    #[inline(never)]
    pub fn feed(
        &mut self,
        alloc: Global,
        last: &mut Line,
        piece: &[u8],
    ) -> Result<Progress, LayoutFault>
        requires { IsReader (fields last.old self.old) }
        ensures reader { IsReader (fields last.new self.new) }
        ensures idle { live_test self.old.phase ≡ false
            → (result ≡ progress_of self.old.phase 0) × (last.new ≡ last.old) × (self.new ≡ self.old) }
        ensures whole { IfOk result (λ progress. progress.done ≡ false → progress.used ≡ length piece.now) }
        ensures stays { IfErr result (λ fault. self.new.phase ≡ Phase.Rejected fault) }
        ensures moved { IfOk result (λ progress. last.new.digits.offset ≡ last.old.digits.offset + progress.used) }
        ensures meets { (text : List ℕ) → HasRead (fields last.old self.old) text
            → FeedMeets (fields last.old self.old) text piece.now result (fields last.new self.new) }
    {
        if !self.is_live() {
            return self.progress(0);
        }
        let start = last.digits.offset;
        let room = LONGEST_INPUT - start;
        if piece.len() <= room {
            self.take(alloc, last, piece);
            return self.progress(last.digits.offset - start);
        }
        self.take(alloc, last, &piece[..room]);
        if self.is_live() {
            self.reject(LayoutFault::TooLong);
            return Err(LayoutFault::TooLong);
        }
        self.progress(last.digits.offset - start)
    }

    /// Ends the last number of an input whose last line is `last`. Returns `None` if the wanted block is complete,
    /// where the end of the input counts as a line end, and else the fault.
    #[tactic(auto, using(crate::proofs::Reading::ByteSteps::keeps_last))]
    pub fn validate_end(&mut self, last: Line) -> Option<LayoutFault>
        requires { IsReader (fields last self.old) }
        ensures fault { result ≡ end_fault (line_ended (at_end last self.old) (has_numbers_alone last.kinds)) }
        ensures blocks { self.new ≡ at_end last self.old }
    {
        if self.is_live() {
            self.end_last_number(last.digits.number());
        }
        self.end_fault(last.kinds)
    }

    // The fault of an input that ends here: its end also ends its last line.
    #[tactic(auto, unfolding(crate::specs::Private::Step::line_ended))]
    fn end_fault(&self, kinds: Kinds) -> Option<LayoutFault>
        requires { live_test self.now.phase ≡ true → self.now.complete < self.now.wanted }
        ensures { result ≡ end_fault (line_ended self.now (has_numbers_alone kinds)) }
    {
        match self.phase {
            // A size line without a fault begins a block, of which no time was read.
            Phase::Seeking if kinds.is_number_line() => {
                match self.size_line.stated(self.layout, self.line) {
                    Ok(_) => Some(LayoutFault::Truncated { have: 0 }),
                    Err(fault) => Some(fault),
                }
            }
            Phase::Seeking => Some(LayoutFault::NoBlock {
                found: self.complete,
            }),
            Phase::Body if self.body.validated < self.body.due => Some(LayoutFault::Truncated {
                have: self.body.times(self.layout),
            }),
            Phase::Body => {
                let wanted = self.wanted;
                let complete = self.complete + 1;
                if complete == wanted {
                    None
                } else {
                    Some(LayoutFault::NoBlock { found: complete })
                }
            }
            Phase::Done => None,
            Phase::Rejected(fault) => Some(fault),
        }
    }
}
