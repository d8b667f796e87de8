pub mod image;
pub mod key;
pub mod policy;
pub mod script;

use crate::bad_file::BadFile;
use std::alloc::Global;
use text_scan::{FaultAt, TextFault};

/// The most bytes of an image, of a script, of a source and of reports.
pub const TEXT_LIMIT: usize = 1_048_576;

/// A kind of file: what its bytes are read as, how many there are at most, and the refusal that
/// names a fault.
pub trait Kind: Copy {
    ghost use Rattle.std.specs.Prelude.{◌≡◌};
    ghost use Rattle.text_scan.specs.Reader.{Reads, value_as};
    ghost use Rattle.input_files.specs.Row.{FileKind};

    /// The value of such a file.
    type Value: Drop;

    /// What a value stands for.
    ghost Meaning: { Type 0 };

    ghost meaning: { Self.Value → Meaning };

    /// Its limit, its grammar and the refusal that names a fault.
    ghost kind: { FileKind Meaning };

    /// The most bytes of such a file.
    fn limit() -> usize
        ensures { result ≡ kind.limit };

    /// The value of a file's bytes, or their first fault.
    fn parse(alloc: Global, bytes: Vec<u8>) -> Result<Self::Value, TextFault>
        ensures { Reads (value_as meaning result) (kind.grammar bytes.items) };

    /// The refusal that names a fault of such a file.
    fn refusal(fault: FaultAt) -> BadFile
        ensures { result ≡ kind.refusal fault };
}
