//! The whole program with files in memory: its log of files and its exit status.
use crate::events::Event;
use crate::fakes::{Pieces, Taken};
use crate::memory_files::{Entry, MemoryFiles};
use crate::texts::{BY_MACHINE, ORDER};
use pfs_base::Buffered;
use pfs_desk::{OpenFault, run_program};
use std::alloc::Global;
use std::process::Abort;
use std::test::Fail;

const FILE: Entry<'static> = Entry {
    path: b"ta",
    bytes: BY_MACHINE,
};

const ORDER_FILE: Entry<'static> = Entry {
    path: b"order",
    bytes: ORDER,
};

// Runs `check` of these two paths, and returns its exit status.
fn check<R: Abort>(
    alloc: Global,
    files: &mut MemoryFiles<'_, R>,
    paths: [&str; 2],
) -> Result<u8, Fail> {
    let mut words = Vec::new(alloc);
    for word in ["check", "--layout", "taillard", paths[0], paths[1]] {
        words.push(String::from_str(alloc, word)?)?;
    }
    let mut input = Pieces::whole(b"");
    let mut output = Buffered::new(Taken::new(256, 256));
    let mut errors = Taken::new(256, 256);
    let words = words.as_slice();
    let status = run_program(alloc, words, files, &mut input, &mut output, &mut errors);
    Ok(status)
}

// Returns a letter for an event: the first of the path for an opened file, and `N` for `none`, which could not be
// opened; and for a closed file `F` if a read of it failed, `E` if one reported its end, `U` if all of its bytes are
// left, and else `P`.
fn letter(event: &Event<'_>) -> u8 {
    match event {
        Event::Opened(path) if path.as_slice() == FILE.path => b't',
        Event::Opened(path) if path.as_slice() == ORDER_FILE.path => b'o',
        Event::NotOpened(path, OpenFault::Closed) if path.as_slice() == b"none".as_slice() => b'N',
        Event::Opened(_) | Event::NotOpened(_, _) => b'?',
        Event::Closed(_, true, _) => b'F',
        Event::Closed(_, _, true) => b'E',
        Event::Closed(left, _, _) if *left == BY_MACHINE || *left == ORDER => b'U',
        Event::Closed(_, _, _) => b'P',
    }
}

// Returns whether `check` of these two paths has this exit status and the log with these letters.
fn logs<R: Abort>(
    rt: &R,
    alloc: Global,
    paths: [&str; 2],
    fails_at: Option<u64>,
    status: u8,
    log: &[u8],
) -> Result<bool, Fail> {
    let mut files = MemoryFiles::new(rt, alloc, FILE, ORDER_FILE, fails_at);
    let returned = check(alloc, &mut files, paths)?;
    let mut left = log;
    for event in files.events() {
        match left.split_first() {
            Some((first, rest)) if *first == letter(event) => left = rest,
            _ => return Ok(false),
        }
    }
    Ok(returned == status && left.is_empty())
}

#[test]
fn a_check_logs_what_it_does_with_its_files(rt: HostRuntime) -> Result<(), Fail> {
    for (paths, fails_at, status, log) in [
        (["ta", "order"], None, 0, b"toPE".as_slice()),
        (["ta", "order"], Some(1), 4, b"toFU".as_slice()),
        (["ta", "order"], Some(2), 4, b"toPF".as_slice()),
        (["order", "ta"], None, 2, b"otPU".as_slice()),
        (["ta", "none"], None, 4, b"tNU".as_slice()),
        (["none", "order"], None, 4, b"N".as_slice()),
    ] {
        assert!(rt;
            logs(&rt, rt.alloc(), paths, fails_at, status, log)?,
            "{paths:?}"
        );
    }
    Ok(())
}
