ghost use Rattle.std.specs.Prelude.{◌≡◌, Ok};
ghost use Rattle.input_files.specs.CommandLine.{Gives, refused_words};

use crate::status::Status;
use std::alloc::Global;
use std::env::Args;
use std::io;

/// The arguments of a command line, without the program's name. One that is not UTF-8 is no
/// argument of a command.
pub fn arguments_of(alloc: Global, words: io::Result<Args>) -> Result<Vec<String>, Status>
    ensures { Gives words result }
{
    let words = words.map_err(|error| refused_words(error.kind()))?;
    behind_name(alloc, words)
}

// The words behind the first.
fn behind_name(alloc: Global, mut words: Args) -> Result<Vec<String>, Status>
    ensures { Gives (Ok words) result }
{
    let _name = words.next();
    words.collect(alloc).map_err(|_| Status::Memory)
}

fn refused_words(kind: io::ErrorKind) -> Status
    ensures { result ≡ refused_words kind }
{
    match kind {
        io::ErrorKind::InvalidData => Status::Words,
        _ => Status::Memory,
    }
}
