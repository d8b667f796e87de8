ghost use Rattle.std.specs.Prelude.{◌≡◌};
ghost use Rattle.device_types.specs.Bounds.{words_region, executable_region, output_region, is_part_of, is_free_region, is_valid_region, are_valid_beside, are_valid, are_valid_one, is_disjoint};

use crate::map::{META, META_ONE, MR, PROGRAM, RAM};
use crate::region::Region;

/// The bounds of the executable region and the output region (APEX's ERmin, ERmax, ORmin, ORmax):
/// addresses of their first and last words.
#[derive(Clone, Copy, Debug, PartialEq, Eq)]
pub struct Bounds {
    pub er_min: u16,
    pub er_max: u16,
    pub or_min: u16,
    pub or_max: u16,
}

impl Bounds {
    /// The executable region. Where ERmax is FFFE or above, its last address wraps.
    pub fn executable_region(&self) -> Region
        ensures { result ≡ executable_region self.now }
    {
        words_region(self.er_min, self.er_max)
    }

    /// The output region, likewise.
    pub fn output_region(&self) -> Region
        ensures { result ≡ output_region self.now }
    {
        words_region(self.or_min, self.or_max)
    }
}

// From one word to another, the second byte of the last among them.
fn words_region(first: u16, last: u16) -> Region
    ensures { result ≡ words_region first last }
{
    Region {
        first,
        last: last.wrapping_add(1),
    }
}

impl Region {
    fn is_part_of(self, outer: Region) -> bool
        ensures { result ≡ is_part_of self outer }
    {
        outer.first <= self.first && self.last <= outer.last
    }

    fn is_disjoint(self, other: Region) -> bool
        ensures { result ≡ is_disjoint self other }
    {
        self.last < other.first || other.last < self.first
    }

    fn is_free(self, metadata: Region) -> bool
        ensures { result ≡ is_free_region metadata self }
    {
        (self.is_part_of(RAM) || self.is_part_of(PROGRAM))
            && self.is_disjoint(MR)
            && self.is_disjoint(metadata)
    }
}

// Whether a region may run from the word at `first` to the word at `last` beside these metadata.
fn is_valid_region(metadata: Region, first: u16, last: u16) -> bool
    ensures { result ≡ is_valid_region metadata first last }
{
    first % 2 == 0
        && last % 2 == 0
        && first <= last
        && Region {
            first,
            last: last + 1,
        }
        .is_free(metadata)
}

/// Whether the bounds are valid: even and in order, both regions wholly in RAM or wholly in the
/// program, apart from each other, from the MAC and from the metadata (APEX).
pub fn valid(bounds: &Bounds) -> bool
    ensures { result ≡ are_valid bounds.now }
{
    is_valid_beside(META, bounds)
}

/// Whether the bounds are valid as version 1 has it, whose metadata end with the EXEC word.
pub fn valid_one(bounds: &Bounds) -> bool
    ensures { result ≡ are_valid_one bounds.now }
{
    is_valid_beside(META_ONE, bounds)
}

fn is_valid_beside(metadata: Region, bounds: &Bounds) -> bool
    ensures { result ≡ are_valid_beside metadata bounds.now }
{
    is_valid_region(metadata, bounds.er_min, bounds.er_max)
        && is_valid_region(metadata, bounds.or_min, bounds.or_max)
        && (bounds.er_max + 1 < bounds.or_min || bounds.or_max + 1 < bounds.er_min)
}
