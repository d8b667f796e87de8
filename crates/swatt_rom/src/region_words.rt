ghost use Rattle.std.specs.Prelude.{◌≡◌, ◌<◌, ◌≤◌, ◌+◌, ◌%◌, ◌↔◌, true, IsNone, IsSome, IfSome};
ghost use Rattle.word_arith.specs.declared.size.Size.TheVariants.{Word};
ghost use Rattle.device_types.specs.{Access.IsFormed, Bounds.are_valid};
ghost use Rattle.part_definitions.specs.{BusAccess.read_at, Attestation.{words_between, region_words, region_place}};

use device_types::{Access, Bounds, valid};
use word_arith::Size;

/// The words of ER and then of OR, which are read one by one; some are left.
#[derive(Clone, Copy, Debug)]
pub struct RegionWords {
    pub bounds: Bounds,
    /// The number of the next word.
    pub next: usize,
    pub ghost valid: { are_valid bounds ≡ true },
    pub ghost some_left: { next < region_words bounds },
}

// How many words there are from one place to another.
fn words_between(first: u16, last: u16) -> usize
    requires { first ≤ last }
    ensures { result ≡ words_between first last }
{
    usize::from(last - first) / 2 + 1
}

impl RegionWords {
    /// All words of the region, `None` where the bounds are not valid.
    pub fn new(bounds: Bounds) -> Option<RegionWords>
        ensures none { IsNone result ↔ (region_words bounds ≡ 0) }
        ensures bounds { IfSome result (λ words. words.bounds ≡ bounds) }
        ensures next { IfSome result (λ words. words.next ≡ 0) }
    {
        if valid(&bounds) {
            Some(RegionWords { bounds, next: 0 })
        } else {
            None
        }
    }

    /// The read of the next word.
    pub fn access(self) -> Access
        ensures access { result ≡ read_at Word (region_place self.bounds self.next) }
        ensures formed { IsFormed result }
    {
        Access::Read(self.place(), Size::Word)
    }

    #[tactic(auto, using(crate::proofs::ValidBounds::valid_bounds))]
    fn place(self) -> u16
        ensures place { result ≡ region_place self.bounds self.next }
        ensures even { result % 2 ≡ 0 }
    {
        let bounds = self.bounds;
        let executable = words_between(bounds.er_min, bounds.er_max);
        if self.next < executable {
            bounds.er_min + 2 * self.next as u16
        } else {
            bounds.or_min + 2 * (self.next - executable) as u16
        }
    }

    /// Goes on to the word after the next, `Some` where that was the last.
    #[tactic(auto, using(crate::proofs::ValidBounds::valid_bounds))]
    pub fn pass(&mut self) -> Option<()>
        ensures last { IsSome result ↔ (self.old.next + 1 ≡ region_words self.old.bounds) }
        ensures bounds { self.new.bounds ≡ self.old.bounds }
        ensures next { IsNone result → self.new.next ≡ self.old.next + 1 }
    {
        let executable = words_between(self.bounds.er_min, self.bounds.er_max);
        let output = words_between(self.bounds.or_min, self.bounds.or_max);
        if self.next + 1 == executable + output {
            return Some(());
        }
        self.next += 1;
        None
    }
}
