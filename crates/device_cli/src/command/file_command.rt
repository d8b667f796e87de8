use crate::command_end::CommandEnd;
use crate::ending::Ending;
use crate::power::Power;
use crate::task::Task;
use device_play::PutFault;
use input_files::{File, Inputs, Kind, Refusal};
use outside_edge::{Shelf, Sink};
use std::alloc::{AllocError, Global};

/// A kind of file of which a command puts a text. It takes no memory for it, and no device.
pub trait ShownKind: Kind {
    ghost use Rattle.std.specs.Prelude.{◌≡◌, ◌≤◌, ℕ, List};
    ghost use Rattle.device_cli.specs.{Answer.PutsOutcome, Command.IsShown, Row.{Outcome, Row}};

    /// The row of a file of this name.
    ghost row_of_file: { List ℕ → Row };

    /// What is put of a value.
    ghost outcome: { Self.Value → Outcome };

    /// The kind.
    fn kind() -> Self;

    /// Puts it.
    fn put<W: Sink>(value: &Self::Value, sink: &mut W) -> Result<Ending, PutFault>
        ensures puts { PutsOutcome W.stands W.faults sink.old sink.new (outcome value.now) result }
        ensures counts { W.faults sink.old ≤ W.faults sink.new };

    /// The row reads the file and puts this of its value.
    ghost shown: { IsShown Self.Kind.kind Self.Kind.meaning row_of_file outcome };
}

/// A command whose one argument is the name of a file of this kind.
#[derive(Clone, Copy, Debug)]
pub struct FileCommand<'a, K> {
    pub file: File<'a, K>,
}

impl<'a, K: ShownKind> Task<'a> for FileCommand<'a, K> {
    ghost use Rattle.device_cli.specs.Command.{file_row_of};

    type Values = K::Value;

    type Prepared = ();

    ghost row_of = { file_row_of K.row_of_file };

    ghost command_row = { λ command. K.row_of_file command.file.name.now };

    ghost outcome = { λ command value. K.outcome value };

    ghost is_prepared = { λ command value prepared. Unit {0} };

    ghost once_put = { λ outcome. Unit {0} };

    fn from_arguments(arguments: &'a [String]) -> Option<FileCommand<'a, K>> {
        let [name] = arguments else {
            return None;
        };
        let file = File::new(name.as_str(), K::kind());
        Some(FileCommand { file })
    }

    fn read<S: Shelf>(&self, alloc: Global, shelf: &mut S) -> Result<K::Value, Refusal> {
        self.file.read::<CommandEnd, S>(alloc, shelf)
    }

    fn prepare<P: Power>(&self, _alloc: Global, _value: &K::Value) -> Result<(), AllocError> {
        Ok(())
    }

    fn put<W: Sink>(
        &self,
        _alloc: Global,
        value: &K::Value,
        _prepared: (),
        sink: &mut W,
    ) -> Result<Ending, PutFault> {
        K::put(value, sink)
    }
}
