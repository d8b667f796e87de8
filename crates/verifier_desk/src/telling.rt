ghost use Rattle.std.specs.Prelude.{◌≡◌, ◌≤◌, ◌+◌, ◌++◌, ◌∷◌, ◌||◌, false, ℕ, List, length, option_map, IsTrue, OnOk, IfErr};
ghost use Rattle.desk_memory.specs.{Entry.Entry, Kept.LeavesOr};
ghost use Rattle.source_server.specs.HeldLine.{short_line};
ghost use Rattle.verifier_desk.specs.{DeskLine.desk_line_of, Replies.{DeskFields, gives_report, lines_said}, Serving.{HasFailed, Keeps, Outside, StopsAt}, Telling.{FailsAt, Grows, PutsHeld, TellsLines, Told}, Withheld.nothing_withheld};

use crate::answer_fault::AnswerFault;
use crate::desk::Desk;
use crate::reply::Reply;
use crate::withheld::Withheld;
use desk_memory::{Memory, MemoryFault};
use outside_edge::{Failed, Sink, put_all};
use source_server::Halt;

// Has the memory keep what was noted.
fn settle_noted<M: Memory>(withheld: &Withheld, memory: &mut M) -> Result<(), MemoryFault>
    ensures keeps { (entries : List Entry) → M.stands memory.old entries
        → (withheld.now.is_noted ≡ false → Keeps M.Memory memory.old entries)
        → OnOk result (Keeps M.Memory memory.new entries) }
    ensures crash { (entries : List Entry) → M.stands memory.old entries
        → M.is_honest memory.new → LeavesOr M.may_leave memory.old memory.new entries }
    ensures honest { M.is_honest memory.new → M.is_honest memory.old }
    ensures failed { IfErr result (λ fault. HasFailed M.Memory memory.old memory.new fault) }
    ensures memory_faults { M.faults memory.old ≤ M.faults memory.new }
{
    if withheld.is_noted() {
        memory.settle()?;
    }
    Ok(())
}

/// Puts what was held back, once the memory keeps what it says.
pub fn put_withheld<M: Memory, W: Sink>(
    withheld: &mut Withheld,
    memory: &mut M,
    sink: &mut W,
) -> Result<(), Halt<AnswerFault>>
    ensures puts { (fields : DeskFields) (lines : List (List ℕ)) (first : Outside M W)
        → Told M.Memory W.Sink first (record { memory = memory.old; sink = sink.old }) withheld.old
        fields lines
        → PutsHeld M.Memory W.Sink first (record { memory = memory.new; sink = sink.new }) fields
        lines result }
    ensures empty { OnOk result (withheld.new ≡ nothing_withheld) }
    ensures grows { Grows M.Memory W.Sink (record { memory = memory.old; sink = sink.old })
        (record { memory = memory.new; sink = sink.new }) }
{
    if let Err(fault) = settle_noted(withheld, memory) {
        return Err(Halt::Own(AnswerFault::Unkept(fault)));
    }
    match put_all(sink, withheld.as_slice()) {
        Ok(()) => {
            withheld.clear();
            Ok(())
        }
        Err(Failed) => Err(Halt::Write),
    }
}

// Puts what was held back before a report for which there was no memory.
fn stop_before_report<M: Memory, W: Sink>(
    withheld: &mut Withheld,
    memory: &mut M,
    sink: &mut W,
) -> Halt<AnswerFault>
    ensures stops { (fields : DeskFields) (earlier : List (List ℕ)) (line : List ℕ)
        (first : Outside M W)
        → Told M.Memory W.Sink first (record { memory = memory.old; sink = sink.old }) withheld.old
        fields earlier
        → IsTrue (gives_report fields (lines_said fields earlier)
        (desk_line_of fields.devices line))
        → StopsAt M.Memory W.Sink first (record { memory = memory.new; sink = sink.new }) fields
        (line ∷ earlier) result }
    ensures grows { Grows M.Memory W.Sink (record { memory = memory.old; sink = sink.old })
        (record { memory = memory.new; sink = sink.new }) }
{
    match put_withheld(withheld, memory, sink) {
        Ok(()) => Halt::Own(AnswerFault::Memory),
        Err(halt) => halt,
    }
}

// Sees that there is room for a reply.
fn make_room<M: Memory, W: Sink>(
    withheld: &mut Withheld,
    memory: &mut M,
    sink: &mut W,
) -> Result<(), Halt<AnswerFault>>
    ensures goes_on { (fields : DeskFields) (lines : List (List ℕ)) (first : Outside M W)
        → Told M.Memory W.Sink first (record { memory = memory.old; sink = sink.old }) withheld.old
        fields lines
        → OnOk result (Told M.Memory W.Sink first
        (record { memory = memory.new; sink = sink.new }) withheld.new fields lines) }
    ensures fails { (fields : DeskFields) (lines : List (List ℕ)) (first : Outside M W)
        → Told M.Memory W.Sink first (record { memory = memory.old; sink = sink.old }) withheld.old
        fields lines
        → IfErr result (λ why. FailsAt M.Memory W.Sink first
        (record { memory = memory.new; sink = sink.new }) fields lines why) }
    ensures room { OnOk result (length withheld.new.replies + 256 ≤ 65536) }
    ensures grows { Grows M.Memory W.Sink (record { memory = memory.old; sink = sink.old })
        (record { memory = memory.new; sink = sink.new }) }
{
    if withheld.has_room() {
        return Ok(());
    }
    put_withheld(withheld, memory, sink)
}

// Holds a reply back.
fn hold_back(withheld: &mut Withheld, reply: &Reply)
    requires { length withheld.old.replies + 256 ≤ 65536 }
    ensures { withheld.new ≡ record {
      replies = withheld.old.replies ++ reply.now.text;
      is_noted = withheld.old.is_noted || reply.now.is_noted;
    } }
{
    withheld.push(reply.as_slice());
    if reply.is_noted() {
        withheld.note();
    }
}

/// Answers a line; `None` is one that is too long. Its reply is held back.
pub fn serve_line<M: Memory, W: Sink>(
    desk: &mut Desk,
    line: Option<&[u8]>,
    withheld: &mut Withheld,
    memory: &mut M,
    sink: &mut W,
) -> Result<(), Halt<AnswerFault>>
    ensures goes_on { (fields : DeskFields) (earlier : List (List ℕ)) (bytes : List ℕ)
        (first : Outside M W)
        → TellsLines M.Memory W.Sink first (record { memory = memory.old; sink = sink.old })
        withheld.old fields desk.old earlier
        → option_map (λ line. line.now) line.entry ≡ short_line bytes
        → OnOk result (TellsLines M.Memory W.Sink first
        (record { memory = memory.new; sink = sink.new }) withheld.new fields desk.new
        (bytes ∷ earlier)) }
    ensures stops { (fields : DeskFields) (earlier : List (List ℕ)) (bytes : List ℕ)
        (first : Outside M W)
        → TellsLines M.Memory W.Sink first (record { memory = memory.old; sink = sink.old })
        withheld.old fields desk.old earlier
        → option_map (λ line. line.now) line.entry ≡ short_line bytes
        → IfErr result (λ why. StopsAt M.Memory W.Sink first
        (record { memory = memory.new; sink = sink.new }) fields (bytes ∷ earlier) why) }
    ensures grows { Grows M.Memory W.Sink (record { memory = memory.old; sink = sink.old })
        (record { memory = memory.new; sink = sink.new }) }
{
    match make_room(withheld, memory, sink) {
        Ok(()) => {}
        Err(halt) => return Err(halt),
    }
    let Some(line) = line else {
        withheld.push(b"too-long\n");
        return Ok(());
    };
    match desk.answer(line, memory) {
        Ok(None) => Ok(()),
        Ok(Some(reply)) => {
            hold_back(withheld, &reply);
            Ok(())
        }
        Err(AnswerFault::Memory) => Err(stop_before_report(withheld, memory, sink)),
        Err(AnswerFault::Unkept(fault)) => Err(Halt::Own(AnswerFault::Unkept(fault))),
    }
}
