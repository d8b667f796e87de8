ghost use Rattle.std.specs.Prelude.{◌≡◌, ◌<◌, ◌≤◌, ◌⊎◌, ◌++◌, ◌-◌, ◌+◌, ℕ, [], Option, codes, IfOk, None, is_some, suc, if◌then◌else◌};
ghost use Rattle.debug_session.specs.{Request.most_steps, Cause.{cause, refusal_or}, Going.{first_stop, interrupted}, Place.{Run, sight_at, view_of}};
ghost use Rattle.debug_link.specs.{Console.console, Conversation.{HaveCome, count_of}, Writing.{CountsWriteFaults, PutsPackets}};
ghost use Rattle.debug_walk.specs.{Copies.TrackStandsFor, Walk.{OfWalk, Walks, place_of}};
ghost use Rattle.device_core.specs.{Device.HasStepped, Silence.rule_in_line};
ghost use Rattle.device_debug.specs.{Going.{GoesOn, StandsAt, StopsBefore, step_in}, Ahead.{last_boundary, place_past, refused_at, seek_ahead}};
ghost use Rattle.printed_lines.specs.Line.{reset_line};

use crate::grown_text::{GrownText, memory_result};
use crate::interrupts::Interrupts;
use crate::look::Look;
use crate::seek::{Seek, cause_here};
use crate::waiting_lines::WaitingLines;
use debug_link::{AnswerFault, PacketWriter, put_text};
use debug_session::{MOST_STEPS, Stop, StopList};
use debug_walk::{Passing, Track, Walk};
use device_core::StepLine;
use device_types::Rule;
use hmac_core::Digest32;
use outside_edge::{Sink, put_all};
use report_text::print_reset;
use std::alloc::{AllocError, Global};

/// Goes on to the first place behind this one where a device has to stop, and tells the lines of
/// the steps made.
pub fn go_forwards<'a, D: Digest32, I: Interrupts, W: Sink + Drop>(
    track: &mut Track<'a, D>,
    stops: &StopList,
    mut walk: Walk<'a, D>,
    seek: &Seek,
    interrupts: &mut I,
    packets: &mut PacketWriter<W>,
) -> Result<(Walk<'a, D>, Stop), AnswerFault>
    ensures goes_on { (run : Run) (place : ℕ)
        → TrackStandsFor D.hash track.old run
        → StandsAt D.hash run place walk.entry
        → (interrupt : Option ℕ)
        × HaveCome (count_of interrupt) (I.left interrupts.old) (I.left interrupts.new)
        × GoesOn D.hash W.Sink packets.old packets.new run place
        (interrupted (view_of run) place interrupt
        (first_stop (cause (view_of run) stops.now (seek_ahead (step_in seek.now))) place
        (most_steps - place))) result }
    ensures stays { (run : Run)
        → TrackStandsFor D.hash track.old run
        → Walks D.hash run walk.entry
        → TrackStandsFor D.hash track.new run }
    ensures same_run { track.new.run ≡ track.old.run }
    ensures counts { CountsWriteFaults W.faults packets.old.sink packets.new.sink result }
{
    let from = walk.place();
    let passing = Passing::new(stops, seek.is_for_step());
    let mut look = Look::new(from);
    let mut waiting = WaitingLines::new(track.alloc());
    while walk.place() < MOST_STEPS {
        if look.ends_way(interrupts, &walk) {
            return Ok((walk, Stop::Interrupted));
        }
        track.copies.leave(&walk);
        let next = track.copies.next().min(look.next());
        let end = row_end(&walk, &waiting, next);
        walk = walk.play_row(&passing, end);
        if let Some(stopped) = stop_before(track, &walk, from, packets)? {
            return Ok(stopped);
        }
        waiting.tell_step(&walk, packets)?;
        if let Some(stop) = cause_here(&walk, stops, seek) {
            return Ok((walk, stop));
        }
    }
    waiting.tell(packets)?;
    Ok((walk, Stop::End))
}

// How far a device may go: to where a copy or a look is due; where lines wait, to the next step.
fn row_end<D: Digest32>(walk: &Walk<'_, D>, waiting: &WaitingLines, next: u64) -> u64
    requires few { place_of walk.now < most_steps }
    ensures more { place_of walk.now < result }
    ensures within { result ≤ most_steps }
    ensures waits { (waiting.now ≡ []) ⊎ (result ≡ place_of walk.now + 1) }
{
    if waiting.is_empty() {
        next.max(walk.place() + 1).min(MOST_STEPS)
    } else {
        walk.place() + 1
    }
}

// Where the last step was refused, a device stops before it, at a boundary; that is told.
fn stop_before<'a, D: Digest32, W: Sink + Drop>(
    track: &Track<'a, D>,
    walk: &Walk<'a, D>,
    from: u64,
    packets: &mut PacketWriter<W>,
) -> Result<Option<(Walk<'a, D>, Stop)>, AnswerFault>
    requires stepped { 0 < place_of walk.now }
    requires few { place_of walk.now ≤ most_steps }
    ensures stops { (run : Run)
        → TrackStandsFor D.hash track.now run
        → Walks D.hash run walk.now
        → StopsBefore D.hash W.Sink packets.old packets.new run (place_of walk.now - 1)
        (refused_at (view_of run) from (place_of walk.now - 1)) result }
    ensures counts { CountsWriteFaults W.faults packets.old.sink packets.new.sink result }
{
    let step = walk.place() - 1;
    let Some(rule) = refusal_of(walk) else {
        return Ok(None);
    };
    let Some(at) = last_boundary(track, step, from)? else {
        return Ok(None);
    };
    tell_refusal(track.alloc(), step, rule, packets)?;
    Ok(Some((track.walk_to(at)?, Stop::Refused(rule))))
}

// The rule by which the last step was refused, if it is told.
fn refusal_of<D: Digest32>(walk: &Walk<'_, D>) -> Option<Rule>
    requires { place_of walk.now ≤ most_steps }
    ensures { OfWalk D.hash walk.now (λ run place. (before : ℕ)
        → place ≡ before + 1
        → result ≡ refusal_or (sight_at run before).next.refused None) }
{
    told_rule(broken_rule(walk.live().line()))
}

fn broken_rule(line: Option<StepLine<'_>>) -> Option<Rule>
    ensures { result ≡ rule_in_line line.entry }
{
    match line {
        Some(StepLine::Reset(rule)) => Some(rule),
        Some(StepLine::Sent(_)) | Some(StepLine::Report(_)) | Some(StepLine::Denied(_)) => None,
        None => None,
    }
}

// The script's reset stops nothing.
fn told_rule(rule: Option<Rule>) -> Option<Rule>
    ensures { result ≡ refusal_or rule None }
{
    rule.filter(|rule| *rule != Rule::X0)
}

// The last boundary up to a place, if no step since was refused and it lies behind another place.
fn last_boundary<D: Digest32>(
    track: &Track<'_, D>,
    until: u64,
    from: u64,
) -> Result<Option<u64>, AllocError>
    requires { until ≤ most_steps }
    ensures { (run : Run)
        → TrackStandsFor D.hash track.now run
        → IfOk result (λ last. last ≡ last_boundary (view_of run) from until) }
{
    let mut walk = track.walk_before(until + 1)?;
    let mut last = boundary_past(&walk, from);
    while walk.place() < until {
        walk = walk.step(&[]);
        last = boundary_behind(&walk, from, last);
    }
    Ok(last)
}

// Behind one more step.
fn boundary_behind<D: Digest32>(walk: &Walk<'_, D>, from: u64, last: Option<u64>) -> Option<u64>
    requires stepped { HasStepped walk.now.live }
    requires few { place_of walk.now ≤ most_steps }
    ensures { OfWalk D.hash walk.now (λ run place. (before : ℕ)
        → place ≡ suc before
        → result ≡ (if (sight_at run place).boundary then place_past from place
        else if is_some (sight_at run before).next.refused then None else last)) }
{
    if walk.is_at_boundary() {
        boundary_past(walk, from)
    } else if walk.live().entry().reset.is_some() {
        None
    } else {
        last
    }
}

// The place of a walk at a boundary, if it lies behind another one.
fn boundary_past<D: Digest32>(walk: &Walk<'_, D>, from: u64) -> Option<u64>
    ensures { OfWalk D.hash walk.now (λ run place.
        result ≡ (if (sight_at run place).boundary then place_past from place else None)) }
{
    if walk.is_at_boundary() && walk.place() > from {
        Some(walk.place())
    } else {
        None
    }
}

// Tells of a step before which a device stops.
fn tell_refusal<W: Sink + Drop>(
    alloc: Global,
    step: u64,
    rule: Rule,
    packets: &mut PacketWriter<W>,
) -> Result<(), AnswerFault>
    ensures tells { PutsPackets W.Sink packets.old packets.new
        (console (codes "stops before " ++ reset_line step rule)) result }
    ensures counts { CountsWriteFaults W.faults packets.old.sink packets.new.sink result }
{
    let mut text = GrownText::new(alloc);
    memory_result(put_all(&mut text, b"stops before "))?;
    memory_result(print_reset(step, rule, &mut text))?;
    put_text(text.as_slice(), packets)?;
    Ok(())
}
