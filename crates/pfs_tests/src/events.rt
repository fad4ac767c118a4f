//! The events in a log of files.

use pfs_desk::OpenFault;

/// What was done with a file.
#[derive(Drop, Debug, PartialEq, Eq)]
pub enum Event<'a> {
    /// The file at this path was opened.
    Opened(Vec<u8>),
    /// The file at this path could not be opened.
    NotOpened(Vec<u8>, OpenFault),
    /// A file was closed: the bytes that were left to read, whether a read of it had failed, and whether a read had
    /// reported its end.
    Closed(&'a [u8], bool, bool),
}
