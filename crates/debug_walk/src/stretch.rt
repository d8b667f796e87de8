ghost use Rattle.std.specs.Prelude.{◌≡◌, ◌&&◌, ◌||◌, ◌<◌, None, nat_le};
ghost use Rattle.debug_session.specs.Cause.{is_due, refusal_or};
ghost use Rattle.debug_walk.specs.Stretch.{has_cause, is_instruction, stretch_from, stretch_of_last, stretch_with};

use debug_session::{Hit, SeenAccesses, Watch};
use device_types::{BusRecord, Kind, Rule};

/// What the steps from a boundary on did, up to the next one.
#[derive(Clone, Copy, Debug)]
pub struct Stretch {
    /// Where it begins.
    pub place: u64,
    /// The level there.
    pub level: u64,
    /// It begins with an instruction, or a call of the ROM.
    pub begins: bool,
    /// It ends with a boot.
    pub boots: bool,
    pub first_hit: Option<Hit>,
    pub last_hit: Option<Hit>,
    /// The first rule by which a step was refused.
    pub refused: Option<Rule>,
}

impl Stretch {
    /// Without a step, from this place on.
    pub fn from(place: u64, level: u64) -> Stretch
        ensures { result ≡ stretch_from place level }
    {
        Stretch {
            place,
            level,
            begins: false,
            boots: false,
            first_hit: None,
            last_hit: None,
            refused: None,
        }
    }

    /// That of the last step of a row that begins at a place of this one: behind others it begins
    /// anew, at the same level.
    pub fn of_last(self, place: u64, last: u64) -> Stretch
        ensures { result ≡ stretch_of_last self place last }
    {
        if last == place {
            self
        } else {
            Stretch::from(last, self.level)
        }
    }

    /// With a step behind, before which so many were made.
    pub fn with(
        self,
        step: u64,
        entry: &BusRecord,
        seen: &SeenAccesses,
        watches: &[Watch],
    ) -> Stretch
        ensures { result ≡ stretch_with self step entry.now seen.now watches.now }
    {
        Stretch {
            begins: self.begins || (step == self.place && is_instruction(entry.kind)),
            boots: entry.kind == Kind::Boot,
            first_hit: self.first_hit.or(seen.first_hit(watches)),
            last_hit: seen.last_hit(watches, self.last_hit),
            refused: self.refused.or(entry.reset),
            ..self
        }
    }

    /// The rule before whose refusal a device stops; the script's reset stops nothing.
    pub fn refusal(&self) -> Option<Rule>
        ensures { result ≡ refusal_or self.now.refused None }
    {
        self.refused.filter(|rule| *rule != Rule::X0)
    }

    /// Whether a step ends with it: an instruction of no higher level, or a boot.
    pub fn is_step(&self, highest: u64) -> bool
        ensures { result ≡ (self.now.boots || self.now.begins && nat_le self.now.level highest) }
    {
        self.boots || (self.begins && self.level <= highest)
    }

    /// Whether so many steps were made within it for the first time.
    pub fn reaches(&self, place: u64, until: Option<u64>) -> bool
        ensures { result ≡ is_due until self.now.place place }
    {
        until.is_some_and(|until| self.place < until && until <= place)
    }

    /// Whether there was a hit, or so many steps were made within it.
    pub fn has_cause(&self, place: u64, until: Option<u64>) -> bool
        ensures { result ≡ has_cause self.now until place }
    {
        self.first_hit.is_some() || self.reaches(place, until)
    }
}

fn is_instruction(kind: Kind) -> bool
    ensures { result ≡ is_instruction kind }
{
    matches!(kind, Kind::Cpu | Kind::Rom)
}
