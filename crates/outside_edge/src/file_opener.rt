ghost use Rattle.std.specs.Prelude.{◌≡◌, ℕ, List, Option, None, Some, IfErr, IfOk};
ghost use Rattle.std.specs.IoError.{error_kind};
ghost use Rattle.outside_edge.specs.File.{Finds, HasFile};

use crate::open_file::OpenFile;
use std::io;
use std::io::ErrorKind;

/// Files that are opened by their names.
pub trait FileOpener {
    type File: OpenFile + Drop;

    /// The files that it opens, names and bytes, where it tells them.
    ghost files: { Self → Option (List (List ℕ × List ℕ)) };

    /// Opens a file at its first byte. Of the errors only `NotFound` says that there is none.
    fn open(&mut self, name: &str) -> io::Result<Self::File>
        ensures opened { IfOk result (λ file. HasFile (files self.old) name.now (λ bytes.
            Self.File.told file ≡ Some (record { bytes = bytes; place = 0 }))) }
        ensures absent { IfErr result (λ error. error_kind error ≡ ErrorKind.NotFound
            → Finds (files self.old) name.now None) }
        ensures kept { files self.new ≡ files self.old };
}
