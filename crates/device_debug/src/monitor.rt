ghost use Rattle.std.specs.Prelude.{◌≡◌, ◌≤◌, ◌-◌, ◌++◌, IfErr, IfOk};
ghost use Rattle.debug_session.specs.{Request.most_steps, declared.request.Request.TheVariants.Steps, Monitor.{flags_text, request_text, texts_from}, Place.{Run, sight_at, view_of}, Sight.View};
ghost use Rattle.debug_link.specs.{Console.{AddsText, console}, Writing.{CountsWriteFaults, PutsPackets}, declared.answer_fault.AnswerFault.TheVariants.Memory};
ghost use Rattle.debug_walk.specs.{Copies.{TrackStandsFor, played_run}, Walk.{OfWalk, Walks, place_of}};
ghost use Rattle.device_debug.specs.Telling.{text_in};

use crate::grown_text::{GrownText, memory_result};
use crate::step_text::StepText;
use debug_link::{AnswerFault, ConsoleText, PacketWriter, put_text};
use debug_session::{MOST_STEPS, Request};
use debug_walk::{Track, Walk};
use device_play::print_end_of;
use hmac_core::Digest32;
use line_buffer::{LineBuffer, flag_digit};
use outside_edge::Sink;
use std::alloc::Global;

const HELP: &[u8] = b"monitor steps     how many bus steps were made
monitor flags     EXEC and AUX
monitor play      what play prints of these steps
monitor trace N   the last N lines of their trace file, N in 1..1000
monitor until N   continue and reverse-continue stop at N steps too; 0 takes this back
";

/// Tells what a user asks for, of a device that stands at a place.
pub fn tell<'a, D: Digest32, W: Sink + Drop>(
    track: &Track<'a, D>,
    halted: &Walk<'a, D>,
    request: Request,
    packets: &mut PacketWriter<W>,
) -> Result<(), AnswerFault>
    ensures tells { (run : Run)
        → TrackStandsFor D.hash track.now run
        → Walks D.hash run halted.now
        → place_of halted.now ≤ most_steps
        → PutsPackets W.Sink packets.old packets.new
        (console (request_text (view_of run) (place_of halted.now) request)) result }
    ensures counts { CountsWriteFaults W.faults packets.old.sink packets.new.sink result }
{
    let place = halted.place();
    match request {
        Request::Steps => tell_text(steps_line(place).as_slice(), packets),
        Request::Flags => tell_text(flags_line(halted).as_slice(), packets),
        Request::Play => {
            let end = end_text(track.alloc(), halted)?;
            tell_steps(track, 0, place, StepText::Lines, end.as_slice(), packets)
        }
        Request::Trace(lines) => {
            let first = place.saturating_sub(lines);
            tell_steps(track, first, place, StepText::Trace, b"", packets)
        }
        Request::Until(_) => Ok(()),
        Request::Help => tell_text(HELP, packets),
        Request::Other => tell_text(b"no such command: monitor help\n", packets),
    }
}

// Tells a text that is at hand.
fn tell_text<W: Sink + Drop>(text: &[u8], packets: &mut PacketWriter<W>) -> Result<(), AnswerFault>
    ensures tells { PutsPackets W.Sink packets.old packets.new (console text.now) result }
    ensures counts { CountsWriteFaults W.faults packets.old.sink packets.new.sink result }
{
    put_text(text, packets)?;
    Ok(())
}

fn steps_line(place: u64) -> LineBuffer
    ensures { (view : View) → result ≡ request_text view place Steps }
{
    let mut line = LineBuffer::new();
    line.push_decimal(place);
    line.push(b" steps of ");
    line.push_decimal(MOST_STEPS);
    line.push(b"\n");
    line
}

fn flags_line<D: Digest32>(halted: &Walk<'_, D>) -> LineBuffer
    ensures { OfWalk D.hash halted.now (λ run place. result ≡ flags_text (sight_at run place)) }
{
    let mut line = LineBuffer::new();
    line.push(b"exec ");
    line.push(flag_digit(halted.live().exec()));
    line.push(b" aux ");
    line.push(flag_digit(halted.live().aux()));
    line.push(b"\n");
    line
}

// The end line of `play`.
fn end_text<D: Digest32>(alloc: Global, halted: &Walk<'_, D>) -> Result<GrownText, AnswerFault>
    ensures text { IfOk result (λ text. OfWalk D.hash halted.now
        (λ run place. text.bytes ≡ (sight_at run place).end_line)) }
    ensures fault { IfErr result (λ fault. fault ≡ Memory) }
{
    let mut text = GrownText::new(alloc);
    memory_result(print_end_of(halted.live(), &mut text))?;
    Ok(text)
}

// Tells what there is to tell of each step from one place on up to another, as they are played once
// more, and an end.
fn tell_steps<D: Digest32, W: Sink + Drop>(
    track: &Track<'_, D>,
    from: u64,
    until: u64,
    kind: StepText,
    end: &[u8],
    packets: &mut PacketWriter<W>,
) -> Result<(), AnswerFault>
    ensures tells { (run : Run)
        → TrackStandsFor D.hash track.now run
        → from ≤ until → until ≤ most_steps
        → PutsPackets W.Sink packets.old packets.new
        (console (texts_from (view_of run) (text_in kind) from (until - from) ++ end.now)) result }
    ensures counts { CountsWriteFaults W.faults packets.old.sink packets.new.sink result }
{
    let mut text = ConsoleText::new();
    add_texts(track, from, until, kind, &mut text, packets)?;
    text.add(end, packets)?;
    text.finish(packets)?;
    Ok(())
}

// Adds what there is to tell of each of these steps to a text.
fn add_texts<D: Digest32, W: Sink + Drop>(
    track: &Track<'_, D>,
    from: u64,
    until: u64,
    kind: StepText,
    text: &mut ConsoleText,
    packets: &mut PacketWriter<W>,
) -> Result<(), AnswerFault>
    ensures adds { from ≤ until → until ≤ most_steps
        → AddsText W.Sink packets.old packets.new text.old
        (texts_from (view_of (played_run D.hash track.now.run)) (text_in kind) from (until - from))
        text.new result }
    ensures counts { CountsWriteFaults W.faults packets.old.sink packets.new.sink result }
{
    let mut walk = track.walk_anew(from)?;
    let end = until.min(MOST_STEPS);
    while walk.place() < end {
        let step = walk.place();
        walk = walk.step(&[]);
        let more = kind.of(track.alloc(), step, walk.live())?;
        text.add(more.as_slice(), packets)?;
    }
    Ok(())
}
