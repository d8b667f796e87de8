ghost use Rattle.std.specs.{Prelude.{◌≡◌, ◌<◌, IfSome}, List.All};
ghost use Rattle.debug_session.specs.Place.{Run};
ghost use Rattle.debug_walk.specs.{Copies.{AreCopies, IsCopy}, Walk.{Walks, place_of}};

use crate::walk::Walk;
use hmac_core::Digest32;
use std::alloc::Global;

// Of as many far copies each second one is dropped.
const MOST_FAR: usize = 32;

// Of more near ones the oldest is dropped.
const MOST_NEAR: usize = 8;

// The steps between far copies at first, so that nearly all of these are left in 10,000,000 steps.
const FIRST_SPACING: u64 = 5_000;

/// Copies of a device that were left on its way, at boundaries, so that going back does not begin
/// at power-on. The far ones are so many steps apart, the near ones lie before where it went back
/// to last.
#[derive(Drop)]
pub struct Copies<'a, D: Digest32> {
    alloc: Global,
    far: Vec<Walk<'a, D>>,
    near: Vec<Walk<'a, D>>,
    spacing: u64,
    next: u64,
}

impl<'a, D: Digest32> Copies<'a, D> {
    pub fn new(alloc: Global) -> Copies<'a, D>
        ensures { (run : Run) → AreCopies D.hash run result }
    {
        Copies {
            alloc,
            far: Vec::new(alloc),
            near: Vec::new(alloc),
            spacing: FIRST_SPACING,
            next: FIRST_SPACING,
        }
    }

    /// Where a far copy is due next.
    pub fn next(&self) -> u64
        ensures { result ≡ self.now.next }
    {
        self.next
    }

    /// Leaves a far copy where one is due. Where memory is out there is none.
    pub fn leave(&mut self, walk: &Walk<'a, D>)
        ensures { (run : Run)
            → AreCopies D.hash run self.old
            → Walks D.hash run walk.now
            → AreCopies D.hash run self.new }
    {
        if walk.place() < self.next {
            return;
        }
        if let Ok(Some(copy)) = walk.try_clone(self.alloc) {
            self.next = copy.place().saturating_add(self.spacing);
            push_copy(&mut self.far, copy);
            if self.far.len() >= MOST_FAR {
                self.thin();
            }
        }
    }

    // Drops each second far copy.
    fn thin(&mut self)
        ensures { (run : Run)
            → AreCopies D.hash run self.old
            → AreCopies D.hash run self.new }
    {
        let mut at = 0;
        while at < self.far.len() {
            drop(self.far.remove(at));
            at += 1;
        }
        self.spacing = self.spacing.saturating_mul(2);
    }

    /// Leaves a near copy.
    pub fn leave_near(&mut self, walk: &Walk<'a, D>)
        ensures { (run : Run)
            → AreCopies D.hash run self.old
            → Walks D.hash run walk.now
            → AreCopies D.hash run self.new }
    {
        drop_oldest(&mut self.near);
        if let Ok(Some(copy)) = walk.try_clone(self.alloc) {
            push_copy(&mut self.near, copy);
        }
    }

    /// The last copy before a place.
    pub fn last_before(&self, place: u64) -> Option<&Walk<'a, D>>
        ensures copy { (run : Run)
            → AreCopies D.hash run self.now
            → IfSome result (λ walk. IsCopy D.hash run walk.now) }
        ensures before { IfSome result (λ walk. place_of walk.now < place) }
    {
        last_of(&self.near, place, last_of(&self.far, place, None))
    }
}

// With one more copy, where there is memory for it.
fn push_copy<'a, D: Digest32>(copies: &mut Vec<Walk<'a, D>>, copy: Walk<'a, D>)
    ensures { (run : Run)
        → All (IsCopy D.hash run) copies.old.items
        → IsCopy D.hash run copy.entry
        → All (IsCopy D.hash run) copies.new.items }
{
    let _ = copies.push(copy);
}

// Without the oldest of the most near copies.
fn drop_oldest<D: Digest32>(copies: &mut Vec<Walk<'_, D>>)
    ensures { (run : Run)
        → All (IsCopy D.hash run) copies.old.items
        → All (IsCopy D.hash run) copies.new.items }
{
    if copies.len() >= MOST_NEAR {
        drop(copies.remove(0));
    }
}

// The last one of these before a place, or another one.
fn last_of<'w, 'a, D: Digest32>(
    copies: &'w [Walk<'a, D>],
    place: u64,
    other: Option<&'w Walk<'a, D>>,
) -> Option<&'w Walk<'a, D>>
    ensures copy { (run : Run)
        → All (IsCopy D.hash run) copies.now
        → IfSome other.entry (λ walk. IsCopy D.hash run walk.now)
        → IfSome result (λ walk. IsCopy D.hash run walk.now) }
    ensures before { IfSome other.entry (λ walk. place_of walk.now < place)
        → IfSome result (λ walk. place_of walk.now < place) }
{
    let mut last = other;
    for copy in copies {
        let least = last.map_or(0, |last| last.place());
        if least <= copy.place() && copy.place() < place {
            last = Some(copy);
        }
    }
    last
}
