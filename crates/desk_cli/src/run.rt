ghost use Rattle.std.specs.Prelude.{◌≡◌, IfSome, codes};
ghost use Rattle.input_files.specs.{CommandLine.texts, declared.status.Status.TheVariants.Words};
ghost use Rattle.desk_cli.specs.{Adopt.{IsAdoptAnswer, adopt_names_of}, Desk.{IsDeskAnswer, desk_names_of}, Founding.{IsFoundAnswer, IsRememberAnswer, found_names_of, remember_names_of}, Move.{IsMoveAnswer, move_names_of}, Run.{HasNoCommand, arguments_behind}, States.{IsStatesAnswer, states_name_of}};

use crate::adopting::run_adopt;
use crate::desk::run_desk;
use crate::founding::{run_found, run_remember};
use crate::memory_files::MemoryFiles;
use crate::moving::run_move;
use crate::states::run_states;
use desk_memory::EntryMemory;
use input_files::Status;
use outside_edge::{Shelf, Sink, Source};
use std::alloc::Global;

/// Runs the command that the arguments spell: `desk`, `states`, `found`, `remember`, `move` or
/// `adopt`.
///
/// `arguments` is the command line without the program's name.
pub fn run<S: Shelf, M: EntryMemory + Drop, F: MemoryFiles<M>, R: Source, W: Sink>(
    alloc: Global,
    arguments: &[String],
    shelf: &mut S,
    memories: &mut F,
    source: &mut R,
    sink: &mut W,
) -> Status
    ensures desk { IfSome (arguments_behind (codes "desk") (texts arguments.now)) (λ words.
        IsDeskAnswer S.Shelf F.told R.Source M.Memory M.desk_of W.Sink shelf.old shelf.new
        memories.old memories.new (record { source = source.old; sink = sink.old })
        (record { source = source.new; sink = sink.new }) (desk_names_of words) result) }
    ensures states { IfSome (arguments_behind (codes "states") (texts arguments.now)) (λ words.
        IsStatesAnswer F.told M.Memory M.desk_of W.Sink memories.old memories.new sink.old
        sink.new (states_name_of words) result
        × (shelf.new ≡ shelf.old) × (source.new ≡ source.old)) }
    ensures founds { IfSome (arguments_behind (codes "found") (texts arguments.now)) (λ words.
        IsFoundAnswer F.told M.Memory M.desk_of memories.old memories.new (found_names_of words)
        result × (shelf.new ≡ shelf.old) × (source.new ≡ source.old) × (sink.new ≡ sink.old)) }
    ensures remember { IfSome (arguments_behind (codes "remember") (texts arguments.now)) (λ words.
        IsRememberAnswer S.Shelf F.told M.Memory M.desk_of shelf.old shelf.new memories.old
        memories.new (remember_names_of words) result
        × (source.new ≡ source.old) × (sink.new ≡ sink.old)) }
    ensures moves { IfSome (arguments_behind (codes "move") (texts arguments.now)) (λ words.
        IsMoveAnswer F.told M.Memory M.desk_of W.Sink memories.old memories.new sink.old sink.new
        (move_names_of words) result × (shelf.new ≡ shelf.old) × (source.new ≡ source.old)) }
    ensures adopts { IfSome (arguments_behind (codes "adopt") (texts arguments.now)) (λ words.
        IsAdoptAnswer S.Shelf F.told M.Memory M.desk_of shelf.old shelf.new memories.old
        memories.new (adopt_names_of words) result
        × (source.new ≡ source.old) × (sink.new ≡ sink.old)) }
    ensures other { HasNoCommand (texts arguments.now)
        → (result ≡ Words) × (shelf.new ≡ shelf.old) × (memories.new ≡ memories.old)
        × (source.new ≡ source.old) × (sink.new ≡ sink.old) }
{
    let [name, words @ ..] = arguments else {
        return Status::Words;
    };
    match name.as_str() {
        "desk" => run_desk(alloc, words, shelf, memories, source, sink),
        "states" => run_states(words, memories, sink),
        "found" => run_found(words, memories),
        "remember" => run_remember(alloc, words, shelf, memories),
        "move" => run_move(alloc, words, memories, sink),
        "adopt" => run_adopt(alloc, words, shelf, memories),
        _ => Status::Words,
    }
}
