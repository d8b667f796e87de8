ghost use Rattle.std.specs.Prelude.{◌≡◌};

use text_scan::FaultAt;
use thiserror::Error;

/// The first fault of a file, by the kind of file that it is in.
#[derive(Clone, Copy, Debug, PartialEq, Eq, Error)]
pub enum BadFile {
    #[error("bad key: {0}")]
    Key(FaultAt),
    #[error("bad image: {0}")]
    Image(FaultAt),
    #[error("bad script: {0}")]
    Script(FaultAt),
    #[error("bad policy: {0}")]
    Policy(FaultAt),
    #[error("bad reports: {0}")]
    Reports(FaultAt),
    #[error("bad source: {0}")]
    Source(FaultAt),
    #[error("bad trace: {0}")]
    Trace(FaultAt),
    #[error("bad keys: {0}")]
    Keys(FaultAt),
    #[error("bad states: {0}")]
    States(FaultAt),
}

impl BadFile {
    ghost use Rattle.input_files.specs.Status.{code_of_file};

    /// The exit status that says which kind of file it is: 7 to 14, or 19.
    pub fn code(&self) -> u8
        ensures { result ≡ code_of_file self.now }
    {
        match self {
            BadFile::Key(_) => 7,
            BadFile::Image(_) => 8,
            BadFile::Script(_) => 9,
            BadFile::Policy(_) => 10,
            BadFile::Reports(_) => 11,
            BadFile::Source(_) => 12,
            BadFile::Trace(_) => 13,
            BadFile::Keys(_) => 14,
            BadFile::States(_) => 19,
        }
    }
}
