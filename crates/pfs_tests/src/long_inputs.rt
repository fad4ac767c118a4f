//! Inputs that are endless or longer than any file.
use crate::devices::assert_in;
use crate::fakes::{Endless, Pieces};
use pfs_base::{LONGEST_INPUT, LONGEST_ORDER_FILE};
use pfs_layout::{Layout, LayoutFault, read_block};
use pfs_order::{OrderFault, read_order};
use std::test::Fail;

#[test]
fn endless_files(rt: HostRuntime) {
    for (byte, left, fails, fault) in [
        (10, usize::MAX, false, LayoutFault::TooLong),
        (49, usize::MAX, false, LayoutFault::TooLong),
        (10, LONGEST_INPUT, false, LayoutFault::NoBlock { found: 0 }),
        (10, 0, true, LayoutFault::Read),
    ] {
        let mut source = Endless::new(byte, left, fails);
        let result = read_block(rt.alloc(), &mut source, Layout::Taillard, 1);
        assert_in(&rt, result.err() == Some(fault), left as u64);
    }
}

#[test]
fn an_order_file_is_read_no_further_than_a_byte_after_the_longest(
    rt: HostRuntime,
) -> Result<(), Fail> {
    let long = vec![in rt.alloc(); b'0'; LONGEST_ORDER_FILE + 1000]?;
    for (most, fails_at, calls, fault) in [
        (1, 65_536, 65_536, OrderFault::Read),
        (1, 65_537, 65_537, OrderFault::Read),
        (1, 65_538, 65_537, OrderFault::TooLong),
        (30_000, 3, 3, OrderFault::Read),
        (30_000, 4, 3, OrderFault::TooLong),
    ] {
        let mut reader = Pieces::new(&long, most, Some(fails_at));
        let result = read_order(rt.alloc(), &mut reader);
        let holds = result.err() == Some(fault) && reader.calls() == calls;
        assert_in(&rt, holds, fails_at);
    }
    Ok(())
}
