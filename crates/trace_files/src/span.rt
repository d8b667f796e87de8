ghost use Rattle.std.specs.Prelude.{◌≡◌, ◌||◌, ◌%◌, ◌+◌, ◌&&◌};
ghost use Rattle.device_types.specs.Map.{lies_in, some_touches, is_within};
ghost use Rattle.part_definitions.specs.MonitorRule.{in_rom};

use device_types::Access;
use word_arith::Size;

/// Addresses from a first to a last; none where the last is below the first.
#[derive(Clone, Copy)]
pub struct Span {
    pub first: u16,
    pub last: u16,
}

pub const KEY: Span = Span {
    first: 0x6A00,
    last: 0x6A3F,
};

pub const STACK: Span = Span {
    first: 0x4000,
    last: 0x43FF,
};

pub const MAC: Span = Span {
    first: 0x0200,
    last: 0x021F,
};

pub const METADATA: Span = Span {
    first: 0x0240,
    last: 0x028F,
};

/// An address in the attestation ROM.
pub fn is_rom(place: u16) -> bool
    ensures { result ≡ in_rom place }
{
    place >= 0xA000 && place < 0xC000
}

impl Span {
    ghost use Rattle.trace_files.specs.Span.{region_of};

    pub fn has(self, place: u16) -> bool
        ensures { result ≡ lies_in (region_of self) place }
    {
        !(place < self.first || self.last < place)
    }

    /// Whether there is an access, and one of its bytes is of these.
    pub fn meets(self, access: Option<Access>) -> bool
        ensures { result ≡ some_touches access (region_of self) }
    {
        match access {
            None => false,
            Some(Access::Read(place, Size::Byte) | Access::Write(place, Size::Byte, _)) => {
                self.has(place)
            }
            Some(
                Access::Fetch(place)
                | Access::Read(place, Size::Word)
                | Access::Write(place, Size::Word, _),
            ) => self.meets_word(place),
        }
    }

    // The bytes at a place and after it.
    #[tactic(auto, using(crate::proofs::Spans::meets_word))]
    fn meets_word(self, place: u16) -> bool
        ensures { result ≡ (lies_in (region_of self) place
            || lies_in (region_of self) (place + 1)) }
    {
        self.first <= self.last
            && place <= self.last
            && u32::from(self.first) <= u32::from(place) + 1
    }

    /// All bytes of an access are of these.
    pub fn holds(self, access: Access) -> bool
        ensures { result ≡ is_within access (region_of self) }
    {
        match access {
            Access::Read(place, Size::Byte) | Access::Write(place, Size::Byte, _) => {
                self.has(place)
            }
            Access::Fetch(place)
            | Access::Read(place, Size::Word)
            | Access::Write(place, Size::Word, _) => self.holds_word(place),
        }
    }

    #[tactic(auto, using(crate::proofs::Spans::holds_word))]
    fn holds_word(self, place: u16) -> bool
        ensures { result ≡ (lies_in (region_of self) place
            && lies_in (region_of self) (place + 1)) }
    {
        self.first <= place && place < self.last
    }
}
