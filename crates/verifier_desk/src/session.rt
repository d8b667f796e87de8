ghost use Rattle.std.specs.Prelude.{◌≤◌};
ghost use Rattle.source_server.specs.Serving.{Serves};
ghost use Rattle.verifier_desk.specs.{Desk.{DeskStandsFor, no_lines_of}, Replies.DeskFields, Serving.{Keeps, desk_promise}, Telling.Grows};

use crate::answer_fault::AnswerFault;
use crate::desk::Desk;
use crate::desk_responder::DeskResponder;
use crate::withheld::Withheld;
use desk_memory::Memory;
use outside_edge::{Sink, Source};
use source_server::{HeldLine, Lines, Served};
use std::alloc::Global;

/// Answers the lines of a source, those that end in a piece at a time: what they lead to is kept by
/// the memory before the first of their replies is put, and all are put before more is taken. A
/// line ends at LF or CRLF, and the last may have no end. It gives the memory back.
pub fn serve<R: Source, M: Memory, W: Sink>(
    alloc: Global,
    desk: Desk,
    source: &mut R,
    memory: M,
    sink: &mut W,
) -> (Served<AnswerFault>, M)
    ensures serves { (fields : DeskFields)
        → DeskStandsFor desk fields no_lines_of
        → Keeps M.Memory memory fields.entries
        → Serves R.Source
        (desk_promise M.Memory W.Sink fields (record { memory = memory; sink = sink.old }))
        source.old source.new (record { memory = result.1; sink = sink.new }) result.0 }
    ensures source_faults { R.faults source.old ≤ R.faults source.new }
    ensures grows { Grows M.Memory W.Sink (record { memory = memory; sink = sink.old })
        (record { memory = result.1; sink = sink.new }) }
{
    let Ok(held) = HeldLine::new(alloc) else {
        return (Served::Own(AnswerFault::Memory), memory);
    };
    let Ok(withheld) = Withheld::new(alloc) else {
        return (Served::Own(AnswerFault::Memory), memory);
    };
    let mut lines = Lines::new(held, DeskResponder::new(desk, withheld, memory));
    let served = source_server::serve(source, &mut lines, sink);
    (served, lines.into_responder().into_memory())
}
