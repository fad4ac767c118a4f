//! Files in memory whose log is always known. They are for tests: they abort if an allocation for the log fails.
ghost use Rattle.std.specs.Prelude.{◌≡◌, ◌++◌, ◌∷◌, [], Some, map};
ghost use Rattle.pfs_tests.specs.MemoryFiles.{at_path, event_of};

use crate::events::Event;
use crate::fakes::Pieces;
use pfs_base::Source;
use pfs_desk::{Files, OpenFault, PathText};
use std::alloc::Global;
use std::process::Abort;

/// A file: its path and its bytes.
#[derive(Clone, Copy)]
pub struct Entry<'a> {
    pub path: &'a [u8],
    pub bytes: &'a [u8],
}

/// Two files in memory. Contracts see their bytes and the whole log, which shows that some `Files` meets its contract
/// with everything known. The process is aborted if a memory allocation for the log fails.
#[derive(Drop)]
pub struct MemoryFiles<'a, R: Abort> {
    rt: &'a R,
    alloc: Global,
    one: Entry<'a>,
    other: Entry<'a>,
    fails_at: Option<u64>,
    events: Vec<Event<'a>>,
}

impl<'a, R: Abort> MemoryFiles<'a, R> {
    /// Returns these two files. Of each opened file the read `fails_at` fails, if it is a number; reads count from 1.
    pub fn new(
        rt: &'a R,
        alloc: Global,
        one: Entry<'a>,
        other: Entry<'a>,
        fails_at: Option<u64>,
    ) -> MemoryFiles<'a, R> {
        MemoryFiles {
            rt,
            alloc,
            one,
            other,
            fails_at,
            events: Vec::new(alloc),
        }
    }

    /// Returns the log.
    pub fn events(&self) -> &[Event<'a>] {
        self.events.as_slice()
    }

    // Returns a copy of a path.
    fn copy(&self, path: &[u8]) -> Vec<u8>
        ensures { result.items ≡ path.now }
    {
        match Vec::from_slice(self.alloc, path) {
            Ok(copy) => copy,
            Err(_) => self.rt.abort(),
        }
    }

    // Adds an event to the log.
    fn note(&mut self, event: Event<'a>)
        ensures log { self.new.events.items ≡ self.old.events.items ++ event.entry ∷ [] }
        ensures one { self.new.one ≡ self.old.one }
        ensures other { self.new.other ≡ self.old.other }
    {
        if self.events.push(event).is_err() {
            self.rt.abort()
        }
    }
}

impl<'a, R: Abort> Files for MemoryFiles<'a, R> {
    type File = Pieces<'a>;

    ghost state = { λ f path. at_path f.one.path.now f.one.bytes.now f.other.path.now f.other.bytes.now path };

    ghost log = { λ f. Some (map event_of f.events.items) };

    fn open(&mut self, path: &PathText) -> Result<Pieces<'a>, OpenFault> {
        let name = path.as_str().as_bytes();
        let copy = self.copy(name);
        let bytes = if name == self.one.path {
            self.one.bytes
        } else if name == self.other.path {
            self.other.bytes
        } else {
            self.note(Event::NotOpened(copy, OpenFault::Closed));
            return Err(OpenFault::Closed);
        };
        self.note(Event::Opened(copy));
        Ok(Pieces::new(bytes, usize::MAX, self.fails_at))
    }

    fn close(&mut self, file: Pieces<'a>) {
        self.note(Event::Closed(file.rest(), file.failed(), file.ended()));
    }
}
