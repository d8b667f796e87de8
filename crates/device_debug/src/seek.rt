ghost use Rattle.std.specs.Prelude.{◌≡◌, [], is_some};
ghost use Rattle.debug_session.specs.{declared.command.Way.TheVariants.Ahead, Cause.{behind, cause_here, stop_of}, Going.step_of, Place.{sight_at, view_of}};
ghost use Rattle.debug_walk.specs.Walk.{OfWalk, TellsCause};
ghost use Rattle.device_debug.specs.Going.{cause_before, step_in, steps_by};

use debug_session::{Going, Hit, Stop, StopList};
use debug_walk::{Stretch, Walk};
use device_types::Rule;
use hmac_core::Digest32;

/// Where a debugger stops, besides where it has to: at a step's end, of this level or below, with
/// PC outside of a range.
#[derive(Clone, Copy, Debug)]
pub struct Seek {
    pub highest: Option<u64>,
    pub first: u32,
    pub end: u32,
}

impl Seek {
    pub fn new(going: Going, level: u64) -> Seek
        ensures { step_in result ≡ step_of going level }
    {
        let (highest, first, end) = match going {
            Going::On => (None, 0, 0),
            Going::Step => (Some(level), 0, 0),
            Going::Range(first, end) => (Some(level), first, end),
        };
        Seek {
            highest,
            first,
            end,
        }
    }

    pub fn is_for_step(&self) -> bool
        ensures { result ≡ is_some (step_in self.now) }
    {
        self.highest.is_some()
    }

    /// Whether a step leads over this stretch to a place with this PC.
    pub fn is_step(&self, stretch: &Stretch, pc: u16) -> bool
        ensures { result ≡ steps_by (step_in self.now) stretch.now pc }
    {
        let pc = u32::from(pc);
        self.highest.is_some_and(|highest| stretch.is_step(highest))
            && !(self.first <= pc && pc < self.end)
    }
}

// Why a device stops at a boundary: a watch goes before breakpoint and number of steps, these
// before a step, and that before a refusal.
fn stop_of(hit: Option<Hit>, is_broken: bool, is_step: bool, refusal: Option<Rule>) -> Option<Stop>
    ensures { result ≡ stop_of hit is_broken is_step refusal }
{
    if let Some(hit) = hit {
        Some(Stop::Watched(hit))
    } else if is_broken {
        Some(Stop::Plain)
    } else if is_step {
        Some(Stop::Stepped)
    } else {
        refusal.map(Stop::Refused)
    }
}

/// Why a device that goes forwards stops here, behind its last stretch.
pub fn cause_here<D: Digest32>(walk: &Walk<'_, D>, stops: &StopList, seek: &Seek) -> Option<Stop>
    ensures { OfWalk D.hash walk.now (λ run place.
        TellsCause stops.now (is_some (step_in seek.now)) run place walk.now.stretch
        → result ≡ cause_here stops.now
        (record { way = Ahead; last = place; step = step_in seek.now }) place (sight_at run place)
        (behind (view_of run) place) []) }
{
    if !walk.is_at_boundary() {
        return None;
    }
    let stretch = walk.stretch();
    let is_step = seek.is_step(stretch, walk.pc());
    stop_of(stretch.first_hit, walk.is_broken(stops), is_step, None)
}

/// Why a device that goes back stops before a stretch, at a place with this PC.
pub fn cause_before(stretch: &Stretch, seek: &Seek, is_broken: bool, pc: u16) -> Option<Stop>
    ensures { result ≡ cause_before (step_in seek.now) stretch.now is_broken pc }
{
    let is_step = seek.is_step(stretch, pc);
    stop_of(stretch.last_hit, is_broken, is_step, stretch.refusal())
}
