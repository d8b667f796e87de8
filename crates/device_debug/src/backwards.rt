ghost use Rattle.std.specs.{Prelude.{◌≡◌, ◌≤◌, ◌<◌, ◌+◌, ◌-◌, ◌⊎◌, ℕ, IfOk, Option, false, length, nat_lt, true, if◌then◌else◌}, Option.option_or};
ghost use Rattle.debug_session.specs.{Request.most_steps, Cause.{behind, cause, is_due, is_plain}, Going.{interrupted, last_stop}, Place.{Run, sight_at, view_of}};
ghost use Rattle.debug_link.specs.Conversation.{HaveCome, count_of};
ghost use Rattle.debug_walk.specs.{Copies.{IsBefore, IsBegun, TrackStandsFor}, Passing.{ArePassed, AreSilent}, Walk.{IsStretch, OfWalk, Walks, place_of}};
ghost use Rattle.device_debug.specs.{Going.{HasArrived, StandsAt, cause_before, step_in}, Ahead.{IsLastBehind, stop_with_place, seek_back}};
ghost use Rattle.part_definitions.specs.CpuRegister.{pc_of};

use crate::interrupts::Interrupts;
use crate::seek::{Seek, cause_before};
use debug_session::{MOST_STEPS, Stop, StopList, Watch};
use debug_walk::{Passing, Stretch, Track, Walk};
use hmac_core::Digest32;
use std::alloc::AllocError;

// Behind so many steps most causes lie; it is looked at eight times as many, if there is none.
const NEAR: u64 = 4_096;

// A place where a device may have to stop.
#[derive(Clone, Copy)]
struct Place {
    place: u64,
    pc: u16,
    is_broken: bool,
}

/// Goes back to the last place before this one where a device has to stop, else to place 1; an
/// interrupt leaves it where it is.
pub fn go_back<'a, D: Digest32, I: Interrupts>(
    track: &mut Track<'a, D>,
    stops: &StopList,
    walk: Walk<'a, D>,
    seek: &Seek,
    interrupts: &mut I,
) -> Result<(Walk<'a, D>, Stop), AllocError>
    ensures goes { (run : Run) (from : ℕ)
        → TrackStandsFor D.hash track.old run
        → StandsAt D.hash run from walk.entry
        → IfOk result (λ end. (interrupt : Option ℕ)
        × HaveCome (count_of interrupt) (I.left interrupts.old) (I.left interrupts.new)
        × HasArrived D.hash run
        (interrupted (view_of run) from interrupt
        (last_stop (cause (view_of run) stops.now (seek_back (step_in seek.now) from)) from))
        end.0 end.1) }
    ensures stays { (run : Run)
        → TrackStandsFor D.hash track.old run
        → TrackStandsFor D.hash track.new run }
    ensures same_run { track.new.run ≡ track.old.run }
    ensures came { HaveCome 0 (I.left interrupts.old) (I.left interrupts.new) }
{
    let end = walk.place().min(MOST_STEPS);
    if end <= 1 {
        return Ok((track.first()?, Stop::Begin));
    }
    let mut last = end - 1;
    let mut distance = NEAR;
    loop {
        let near = track.walk_near(last, distance)?;
        let begin = near.place();
        if let Some((place, stop)) = last_cause(track, stops, near, last, end, seek) {
            return Ok((track.walk_to(place)?, stop));
        }
        if begin == 0 {
            return Ok((track.first()?, Stop::Begin));
        }
        if interrupts.have_come() {
            return Ok((walk, Stop::Interrupted));
        }
        last = begin;
        distance = distance.saturating_mul(8);
    }
}

// The last place with a cause behind that of a walk, up to a place, for who comes from another one.
fn last_cause<'a, D: Digest32>(
    track: &mut Track<'a, D>,
    stops: &StopList,
    mut walk: Walk<'a, D>,
    last: u64,
    from: u64,
    seek: &Seek,
) -> Option<(u64, Stop)>
    requires late { last < from }
    requires few { from ≤ most_steps }
    ensures found { (run : Run)
        → IsBegun D.hash run walk.entry
        → IsBefore last walk.entry
        → IsLastBehind (cause (view_of run) stops.now (seek_back (step_in seek.now) from))
        (place_of walk.entry) last result }
    ensures stays { (run : Run)
        → Walks D.hash run walk.entry
        → TrackStandsFor D.hash track.old run
        → TrackStandsFor D.hash track.new run }
    ensures same_run { track.new.run ≡ track.old.run }
{
    let begin = walk.place();
    let mut distance = last.saturating_sub(begin) / 8;
    let mut found = None;
    let mut here = place_here(&walk, stops);
    while here.place <= last {
        walk = leave(walk, stops, here.is_broken, last + 1);
        // asleep it keeps its PC
        let there = Place {
            place: walk.place() - 1,
            ..here
        };
        walk = to_boundary(walk, stops.watches(), from);
        found = found_before(there, begin, walk.stretch(), seek, found);
        here = place_here(&walk, stops);
        distance = leave_near(track, &walk, last, distance);
    }
    found
}

// Makes one step; where nothing stops a device there and it sleeps, more of sleep before it.
fn leave<'a, D: Digest32>(
    walk: Walk<'a, D>,
    stops: &StopList,
    is_broken: bool,
    end: u64,
) -> Walk<'a, D>
    requires more { place_of walk < end }
    requires few { end ≤ most_steps }
    ensures walks { (run : Run)
        → Walks D.hash run walk.entry
        → Walks D.hash run result }
    ensures within { (place_of walk.entry < place_of result) × (place_of result ≤ end) }
    ensures one { is_broken ≡ true → place_of result ≡ place_of walk.entry + 1 }
    ensures stretch { OfWalk D.hash walk.entry (λ run place.
        (((sight_at run place).boundary ≡ true)
        ⊎ IsStretch stops.now.watches run place walk.entry.stretch)
        → IsStretch stops.now.watches run (place_of result) result.stretch) }
    ensures silent { OfWalk D.hash walk.entry (λ run place.
        AreSilent run place (place_of result - 1)) }
    ensures passed { OfWalk D.hash walk.entry (λ run place.
        (((sight_at run place).boundary ≡ true)
        ⊎ IsStretch stops.now.watches run place walk.entry.stretch)
        → ArePassed stops.now true run place (place_of result)) }
{
    if is_broken {
        walk.step(stops.watches())
    } else {
        walk.play_row(&Passing::new(stops, true), end)
    }
}

// Goes on to a boundary, or up to a place.
fn to_boundary<'a, D: Digest32>(mut walk: Walk<'a, D>, watches: &[Watch], end: u64) -> Walk<'a, D>
    requires within { place_of walk ≤ end }
    requires few { end ≤ most_steps }
    ensures walks { (run : Run)
        → Walks D.hash run walk.entry
        → Walks D.hash run result }
    ensures within { (place_of walk.entry ≤ place_of result) × (place_of result ≤ end) }
    ensures stretch { OfWalk D.hash walk.entry (λ run place.
        IsStretch watches.now run place walk.entry.stretch
        → IsStretch watches.now run (place_of result) result.stretch) }
    ensures passes_none { OfWalk D.hash walk.entry (λ run place. (at : ℕ)
        → place ≤ at → at < place_of result → (sight_at run at).boundary ≡ false) }
    ensures ends { OfWalk D.hash walk.entry (λ run place.
        (place_of result ≡ end) ⊎ ((sight_at run (place_of result)).boundary ≡ true)) }
{
    while !walk.is_at_boundary() && walk.place() < end {
        walk = walk.step(watches);
    }
    walk
}

// Leaves a copy so many steps before a place, and tells how many steps before it the next one is
// to be.
fn leave_near<'a, D: Digest32>(
    track: &mut Track<'a, D>,
    walk: &Walk<'a, D>,
    last: u64,
    distance: u64,
) -> u64
    ensures stays { (run : Run)
        → Walks D.hash run walk.now
        → TrackStandsFor D.hash track.old run
        → TrackStandsFor D.hash track.new run }
    ensures same_run { track.new.run ≡ track.old.run }
{
    let place = walk.place();
    if distance < 8 || place >= last || last - place > distance {
        return distance;
    }
    track.copies.leave_near(walk);
    distance / 8
}

fn place_here<D: Digest32>(walk: &Walk<'_, D>, stops: &StopList) -> Place
    ensures place { result.place ≡ place_of walk.now }
    ensures pc { OfWalk D.hash walk.now (λ run place.
        result.pc ≡ pc_of (sight_at run place).registers) }
    ensures broken { OfWalk D.hash walk.now (λ run place.
        is_due stops.now.until walk.now.stretch.place place
        ≡ is_due stops.now.until (place - length (behind (view_of run) place)) place
        → result.is_broken ≡ is_plain stops.now (sight_at run place)
        (place - length (behind (view_of run) place)) place) }
{
    Place {
        place: walk.place(),
        pc: walk.pc(),
        is_broken: walk.is_broken(stops),
    }
}

// The cause at a place behind the one where the way begins, before this stretch; else what was
// found before.
fn found_before(
    here: Place,
    begin: u64,
    stretch: &Stretch,
    seek: &Seek,
    found: Option<(u64, Stop)>,
) -> Option<(u64, Stop)>
    ensures { result ≡ (if nat_lt begin here.place
        then option_or (stop_with_place here.place
        (cause_before (step_in seek.now) stretch.now here.is_broken here.pc)) found
        else found) }
{
    match cause_before(stretch, seek, here.is_broken, here.pc) {
        Some(stop) if begin < here.place => Some((here.place, stop)),
        _ => found,
    }
}
