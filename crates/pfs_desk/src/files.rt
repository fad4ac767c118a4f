//! Files that are opened for reading.
ghost use Rattle.std.specs.Prelude.{◌≡◌, ℕ, ◌∷◌, [], List, Option, false, IfOk, IfErr};
ghost use Rattle.pfs_desk.specs.FileState.{FileState, MayOpen, MayFail, FileEvent, closed, open_event, Logs};

use pfs_base::Source;
use pfs_words::PathText;

/// Why a file was not opened.
#[derive(Clone, Copy, Debug, PartialEq, Eq)]
pub enum OpenFault {
    /// The file can't be opened.
    Closed,
    /// Memory allocation failed.
    Memory,
}

/// Opens files for reading, and closes them. Contracts see two things, as far as they are known: what is at each path,
/// and the log of what was done with files, in order.
pub trait Files {
    /// An open file.
    type File: Source + Drop;

    ghost state: { Self → List ℕ → FileState };

    ghost log: { Self → Option (List FileEvent) };

    /// Opens the file at a path. No byte of it has been read.
    fn open(&mut self, path: &PathText) -> Result<Self::File, OpenFault>
        ensures log { Logs (log self.old) (log self.new) (open_event path.now result ∷ []) }
        ensures kept { state self.new ≡ state self.old }
        ensures given { IfOk result (λ file. MayOpen (state self.old path.now) (Self.File.left file)) }
        ensures working { IfOk result (λ file. Self.File.has_failed file ≡ false) }
        ensures fresh { IfOk result (λ file. Self.File.has_ended file ≡ false) }
        ensures fails { IfErr result (MayFail (state self.old path.now)) };

    /// Closes an open file.
    fn close(&mut self, file: Self::File)
        ensures log { Logs (log self.old) (log self.new)
            (closed (Self.File.left file) (Self.File.has_failed file) (Self.File.has_ended file) ∷ []) }
        ensures kept { state self.new ≡ state self.old };
}
