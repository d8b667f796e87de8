ghost use Rattle.std.specs.Prelude.{◌≡◌, ◌<◌, ◌≤◌, ◌+◌, ◌-◌, ◌⊎◌, ◌||◌, ℕ, IfOk, IfSome, false, is_some, min, suc, true, if◌then◌else◌};
ghost use Rattle.part_definitions.specs.CpuRegister.{is_asleep, pc_of};
ghost use Rattle.debug_session.specs.{Request.most_steps, Cause.{is_awake, is_broken_at, is_due}, Place.{Run, aux_at, differs, exec_at, sight_at}};
ghost use Rattle.debug_walk.specs.{Copies.IsCopy, Passing.{ArePassed, AreSilent, IsCapped}, Stretch.{has_cause, stretch_from}, Walk.{IsStretch, OfMidway, OfWalk, TellsCause, Walks, place_of, second_flag, stretch_behind, stretch_past, stretch_there}};
ghost use Rattle.device_core.specs.Device.{HasStepped, machine_of, steps_made};
ghost use Rattle.device_play.specs.Midway.{HasGoneOn};

use crate::passing::Passing;
use crate::stretch::Stretch;
use debug_session::{MOST_STEPS, SeenAccesses, StopList, Watch};
use device_core::{AllQuiet, Live, NoneQuiet, Quiet};
use device_play::{LineWatcher, TraceWatcher, Watcher, play_to_shown};
use device_types::ROM_ENTRY;
use execution_flags::AuxFlag;
use hmac_core::Digest32;
use play_script::Playback;
use std::alloc::{AllocError, Global};

/// A device on its way through the places of a run.
#[derive(Drop)]
pub struct Walk<'a, D: Digest32> {
    live: Live<D, AuxFlag>,
    playback: Playback<'a>,
    stretch: Stretch,
}

impl<'a, D: Digest32> Walk<'a, D> {
    /// At the place of a device.
    pub fn at(live: Live<D, AuxFlag>, playback: Playback<'a>) -> Walk<'a, D>
        ensures live { result.live ≡ live }
        ensures playback { result.playback ≡ playback.entry }
        ensures begin { result.stretch ≡ stretch_from (steps_made live) result.stretch.level }
    {
        let stretch = Stretch::from(live.steps(), live.level());
        Walk {
            live,
            playback,
            stretch,
        }
    }

    pub fn live(&self) -> &Live<D, AuxFlag>
        ensures { result.now ≡ self.now.live }
    {
        &self.live
    }

    pub fn place(&self) -> u64
        ensures { result ≡ place_of self.now }
    {
        self.live.steps()
    }

    pub fn level(&self) -> u64
        ensures { OfWalk D.hash self.now (λ run place.
            result ≡ (sight_at run place).level) }
    {
        self.live.level()
    }

    pub fn is_at_boundary(&self) -> bool
        ensures { OfWalk D.hash self.now (λ run place.
            result ≡ (sight_at run place).boundary) }
    {
        self.live.is_at_boundary()
    }

    pub fn pc(&self) -> u16
        ensures { OfWalk D.hash self.now (λ run place.
            result ≡ pc_of (sight_at run place).registers) }
    {
        self.live.registers()[0]
    }

    /// What the steps since the last boundary did.
    pub fn stretch(&self) -> &Stretch
        ensures { result.now ≡ self.now.stretch }
    {
        &self.stretch
    }

    /// Whether a breakpoint is here and the device is awake, or the number of steps is reached.
    pub fn is_broken(&self, stops: &StopList) -> bool
        ensures { OfWalk D.hash self.now (λ run place.
            result ≡ (is_broken_at stops.now (sight_at run place)
            || is_due stops.now.until self.now.stretch.place place)) }
    {
        is_at_breakpoint(&self.live, stops) || self.stretch.reaches(self.place(), stops.until())
    }

    /// Another device here, of one that is at a boundary.
    pub fn try_clone(&self, alloc: Global) -> Result<Option<Walk<'a, D>>, AllocError>
        ensures copy { (run : Run)
            → Walks D.hash run self.now
            → IfOk result (λ copy. IfSome copy (IsCopy D.hash run)) }
        ensures place { IfOk result (λ copy. IfSome copy (λ walk.
            place_of walk ≡ place_of self.now)) }
    {
        match &self.live {
            Live::Running(device) if self.is_at_boundary() => {
                let live = Live::Running(device.try_clone(alloc)?);
                Ok(Some(Walk::at(live, self.playback)))
            }
            _ => Ok(None),
        }
    }

    // The stretch to which the next step belongs: at a boundary one begins.
    fn next_stretch(&self) -> Stretch
        ensures { OfWalk D.hash self.now (λ run place.
            result ≡ stretch_there run place self.now.stretch) }
    {
        if self.is_at_boundary() {
            Stretch::from(self.place(), self.live.level())
        } else {
            self.stretch
        }
    }

    /// Goes one step on, and looks at it.
    pub fn step(self, watches: &[Watch]) -> Walk<'a, D>
        requires few { place_of self < most_steps }
        ensures walks { (run : Run)
            → Walks D.hash run self.entry
            → Walks D.hash run result }
        ensures place { place_of result ≡ place_of self.entry + 1 }
        ensures kept { HasStepped result.live }
        ensures stretch { OfWalk D.hash self.entry (λ run place.
            (((sight_at run place).boundary ≡ true)
            ⊎ IsStretch watches.now run place self.entry.stretch)
            → IsStretch watches.now run (place + 1) result.stretch) }
    {
        let end = self.place() + 1;
        self.make_row::<TraceWatcher, NoneQuiet>(&NoneQuiet, watches, end)
    }

    /// Makes a row of steps up to one that may stop a device, which is looked at, or to a place.
    pub fn play_row(self, passing: &Passing<'_>, end: u64) -> Walk<'a, D>
        requires more { place_of self < end }
        requires few { end ≤ most_steps }
        ensures walks { (run : Run)
            → Walks D.hash run self.entry
            → Walks D.hash run result }
        ensures within { (place_of self.entry < place_of result) × (place_of result ≤ end) }
        ensures silent { OfWalk D.hash self.entry (λ run place.
            AreSilent run place (place_of result - 1)) }
        ensures tells { OfWalk D.hash self.entry (λ run place.
            (((sight_at run place).boundary ≡ true)
            ⊎ TellsCause passing.now.stops.now passing.now.asleep run place self.entry.stretch)
            → TellsCause passing.now.stops.now passing.now.asleep run (place_of result)
            result.stretch) }
        ensures passed { OfWalk D.hash self.entry (λ run place.
            (((sight_at run place).boundary ≡ true)
            ⊎ TellsCause passing.now.stops.now passing.now.asleep run place self.entry.stretch)
            → ArePassed passing.now.stops.now passing.now.asleep run place (place_of result)) }
    {
        let end = self.row_end(passing.stops(), end);
        self.make_row::<LineWatcher, Passing<'_>>(passing, passing.stops().watches(), end)
    }

    // Where a row of steps ends at the latest: where the number of steps is reached, and behind one
    // step in a stretch in which there was a hit or that number was reached.
    fn row_end(&self, stops: &StopList, end: u64) -> u64
        requires { place_of self.now < end }
        ensures within { (place_of self.now < result) × (result ≤ end) }
        ensures capped { IsCapped stops.now.until (place_of self.now) result }
        ensures one { OfWalk D.hash self.now (λ run place.
            (has_cause (stretch_there run place self.now.stretch) stops.now.until place ≡ false)
            ⊎ (result ≡ place + 1)) }
    {
        let place = self.place();
        let stretch = self.next_stretch();
        if stretch.has_cause(place, stops.until()) {
            return place + 1;
        }
        match stops.until() {
            Some(until) if place < until => until.min(end),
            _ => end,
        }
    }

    // Makes a row of steps, up to a place at most, and looks at the last one where it is kept.
    fn make_row<O: Watcher, Q: Quiet>(self, quiet: &Q, watches: &[Watch], end: u64) -> Walk<'a, D>
        requires more { place_of self < end }
        requires few { end ≤ most_steps }
        ensures within { (place_of self.entry < place_of result) × (place_of result ≤ end) }
        ensures kept { O.every_step ≡ true → HasStepped result.live }
        ensures row { OfWalk D.hash self.entry (λ run place.
            HasGoneOn D.hash second_flag O.every_step (Q.quiet quiet.now) run.start run.events_at
            place result.live result.playback) }
        ensures stretch { OfWalk D.hash self.entry (λ run place. (last : ℕ)
            → place_of result ≡ suc last
            → result.stretch ≡ stretch_behind watches.now run place
            (stretch_there run place self.entry.stretch) last
            (is_some (machine_of result.live).bus.last)) }
    {
        let place = self.place();
        let begun = self.next_stretch();
        let Walk {
            live,
            mut playback,
            ..
        } = self;
        let exec = live.exec();
        let aux = live.aux();
        let live = play_to_shown::<O, Q, D, AuxFlag>(live, &mut playback, quiet, end);
        let last = live.steps() - 1;
        let before = begun.of_last(place, last);
        let stretch = with_kept_step(before, &live, exec, aux, watches);
        Walk {
            live,
            playback,
            stretch,
        }
    }

    /// Plays on up to a step that has a line or events, or to a place.
    pub fn play(self, end: u64) -> Walk<'a, D>
        requires more { place_of self < end }
        requires few { end ≤ most_steps }
        ensures walks { (run : Run)
            → Walks D.hash run self.entry
            → Walks D.hash run result }
        ensures within { (place_of self.entry < place_of result) × (place_of result ≤ end) }
    {
        self.make_row::<LineWatcher, AllQuiet>(&AllQuiet, &[], end)
    }

    /// Plays on up to a place, to the last one at most.
    pub fn play_up_to(mut self, place: u64) -> Walk<'a, D>
        ensures walks { (run : Run)
            → Walks D.hash run self.entry
            → Walks D.hash run result }
        ensures place { place_of self.entry ≤ min place most_steps
            → place_of result ≡ min place most_steps }
    {
        let end = place.min(MOST_STEPS);
        while self.place() < end {
            self = self.play(end);
        }
        self
    }

    /// Plays on up to a boundary that is not before a place, or up to another place.
    pub fn play_to_boundary(self, place: u64, end: u64) -> Walk<'a, D>
        ensures { (run : Run)
            → Walks D.hash run self.entry
            → Walks D.hash run result }
    {
        let mut walk = self.play_up_to(place);
        let end = end.min(MOST_STEPS);
        while !walk.is_at_boundary() && walk.place() < end {
            let next = walk.place() + 1;
            walk = walk.play(next);
        }
        walk
    }
}

// With the last step, if it is kept; before it the flags were these.
fn with_kept_step<D: Digest32>(
    before: Stretch,
    live: &Live<D, AuxFlag>,
    exec: bool,
    aux: bool,
    watches: &[Watch],
) -> Stretch
    requires { 0 < steps_made live.now }
    ensures { OfMidway D.hash live.now (λ run place. (last : ℕ)
        → place ≡ suc last
        → exec ≡ exec_at run last
        → aux ≡ aux_at run last
        → result ≡ (if is_some (machine_of live.now).bus.last
        then stretch_past watches.now run last before else before)) }
{
    match live.kept_entry() {
        Some(entry) => {
            let exec_changed = differs(exec, live.exec());
            let aux_changed = differs(aux, live.aux());
            let seen = SeenAccesses::new(entry, exec_changed, aux_changed);
            before.with(live.steps() - 1, entry, &seen, watches)
        }
        None => before,
    }
}

// Whether a flag is not what it was.
fn differs(before: bool, after: bool) -> bool
    ensures { result ≡ differs before after }
{
    before != after
}

// CPUOFF is bit 4 of SR: the processor sleeps.
fn is_asleep(registers: &[u16; 16]) -> bool
    ensures { result ≡ is_asleep registers.now }
{
    registers[2] / 16 % 2 == 1
}

// The processor doesn't sleep, or a call of the ROM begins.
fn is_awake<D: Digest32>(live: &Live<D, AuxFlag>) -> bool
    ensures { OfMidway D.hash live.now (λ run place. result ≡ is_awake (sight_at run place)) }
{
    let registers = live.registers();
    !is_asleep(registers) || registers[0] == ROM_ENTRY
}

fn is_at_breakpoint<D: Digest32>(live: &Live<D, AuxFlag>, stops: &StopList) -> bool
    ensures { OfMidway D.hash live.now (λ run place.
        result ≡ is_broken_at stops.now (sight_at run place)) }
{
    is_awake(live) && stops.has_breakpoint(live.registers()[0])
}
