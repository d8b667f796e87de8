ghost use Rattle.std.specs.Prelude.{◌≡◌, ℕ, Option, false, true};
ghost use Rattle.debug_session.specs.Place.{sight_at};
ghost use Rattle.debug_link.specs.Conversation.{HaveCome};
ghost use Rattle.debug_walk.specs.Walk.{OfWalk};
ghost use Rattle.word_arith.specs.Number.{bit_of};

use crate::interrupts::Interrupts;
use debug_walk::Walk;
use hmac_core::Digest32;

// The steps from one look for an interrupt to the next.
const STEPS: u64 = 65_536;

/// Where an interrupt was looked for last on a way, and whether one has come.
#[derive(Drop)]
pub struct Look {
    last: u64,
    has_come: bool,
}

impl Look {
    /// At the beginning of a way.
    pub fn new(place: u64) -> Look
        ensures { result.has_come ≡ false }
    {
        Look {
            last: place,
            has_come: false,
        }
    }

    /// Where the next look is due: at once, if an interrupt waits for a boundary.
    pub fn next(&self) -> u64 {
        if self.has_come {
            0
        } else {
            self.last.saturating_add(STEPS)
        }
    }

    // Looks where it is due, until one has come.
    fn look<I: Interrupts>(&mut self, interrupts: &mut I, place: u64)
        ensures { (before : Option ℕ)
            → HaveCome (bit_of self.old.has_come) before (I.left interrupts.old)
            → HaveCome (bit_of self.new.has_come) before (I.left interrupts.new) }
    {
        if !self.has_come && place >= self.next() {
            self.last = place;
            self.has_come = interrupts.have_come();
        }
    }

    /// Looks where it is due; whether an interrupt that has come ends the way here, at a boundary.
    pub fn ends_way<D: Digest32, I: Interrupts>(
        &mut self,
        interrupts: &mut I,
        walk: &Walk<'_, D>,
    ) -> bool
        ensures boundary { OfWalk D.hash walk.now (λ run place.
            result ≡ true → (sight_at run place).boundary ≡ true) }
        ensures found { result ≡ true → self.new.has_come ≡ true }
        ensures came { (before : Option ℕ)
            → HaveCome (bit_of self.old.has_come) before (I.left interrupts.old)
            → HaveCome (bit_of self.new.has_come) before (I.left interrupts.new) }
    {
        self.look(interrupts, walk.place());
        self.has_come && walk.is_at_boundary()
    }
}
