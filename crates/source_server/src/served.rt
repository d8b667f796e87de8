ghost use Rattle.std.specs.Prelude.{◌≡◌};
ghost use Rattle.source_server.specs.Serving.{served_after, served_of};

use crate::halt::Halt;

/// How the serving of a source ended.
#[derive(Clone, Copy, Debug, PartialEq, Eq)]
pub enum Served<O> {
    /// All was answered, and the source is at its end.
    Done,
    /// As many bytes were taken as are taken at most, and answered.
    Spent,
    /// The source failed. All before it was answered.
    ReadFault,
    /// The sink failed.
    WriteFault,
    /// The responder has come to an end of its own.
    Own(O),
}

impl<O: Copy> Served<O> {
    /// The end of a serving whose responder stopped.
    pub fn of(halt: Halt<O>) -> Served<O>
        ensures { result ≡ served_of halt }
    {
        match halt {
            Halt::Write => Served::WriteFault,
            Halt::Own(own) => Served::Own(own),
        }
    }

    /// The end of a serving at the end of its source.
    pub fn after(ended: Result<(), Halt<O>>) -> Served<O>
        ensures { result ≡ served_after ended }
    {
        match ended {
            Ok(()) => Served::Done,
            Err(halt) => Served::of(halt),
        }
    }
}
