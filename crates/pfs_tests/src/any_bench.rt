//! A function over any bench. `tests/tools/test_bench.py` has others, which compute with times without the bench and
//! must not compile.
ghost use Rattle.std.specs.Prelude.{◌≡◌, ◌+◌, ◌<◌, ◌≤◌, ◌^◌, max};
ghost use Rattle.pfs_base.specs.FlowShop.{time_of};

use pfs_base::{Bench, SPAN_MAX};

/// Returns the greater of two lengths, plus the time of a job on a machine. The bench counts one cell.
pub fn sum<B: Bench>(bench: &mut B, job: usize, machine: usize, a: B::Span, b: B::Span) -> B::Span
    requires job { job < (B.shop bench.old).jobs }
    requires machine { machine < (B.shop bench.old).machines }
    requires room { B.counted bench.old + 1 < 2 ^ 64 }
    requires in_limit { max (B.Span.number a) (B.Span.number b) + time_of (B.shop bench.old) job machine ≤ SPAN_MAX }
    ensures value { B.Span.number result
        ≡ max (B.Span.number a) (B.Span.number b) + time_of (B.shop bench.old) job machine }
    ensures counted { B.counted bench.new ≡ B.counted bench.old + 1 }
{
    bench.step(job, machine, a, b)
}
