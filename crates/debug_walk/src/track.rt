ghost use Rattle.std.specs.Prelude.{◌≡◌, ◌≤◌, ◌⊎◌, IfOk, true};
ghost use Rattle.debug_session.specs.{Request.most_steps, Place.{Run as PlayedRun, sight_at}};
ghost use Rattle.debug_walk.specs.{Copies.{IsAt, IsBefore, IsBegun, TrackStandsFor, played_run}, Walk.{Walks, place_of}};

use crate::copies::Copies;
use crate::run::Run;
use crate::walk::Walk;
use hmac_core::Digest32;
use std::alloc::{AllocError, Global};

/// A run, and the copies that were left on the way through it.
#[derive(Drop)]
pub struct Track<'a, D: Digest32> {
    alloc: Global,
    run: Run<'a>,
    pub copies: Copies<'a, D>,
}

impl<'a, D: Digest32> Track<'a, D> {
    pub fn new(alloc: Global, run: Run<'a>) -> Track<'a, D>
        ensures stands { TrackStandsFor D.hash result (played_run D.hash run.entry) }
        ensures run { result.run ≡ run.entry }
    {
        Track {
            alloc,
            run,
            copies: Copies::new(alloc),
        }
    }

    pub fn alloc(&self) -> Global
        ensures { result ≡ self.now.alloc }
    {
        self.alloc
    }

    /// A walk at place 1, behind the boot.
    pub fn first(&self) -> Result<Walk<'a, D>, AllocError>
        ensures begins { (run : PlayedRun)
            → TrackStandsFor D.hash self.now run
            → IfOk result (IsBegun D.hash run) }
        ensures place { IfOk result (λ walk. place_of walk ≡ 1) }
    {
        let walk = self.run.begin(self.alloc)?;
        Ok(walk.step(&[]))
    }

    /// A walk from somewhere before a place, a boundary or place 0.
    pub fn walk_before(&self, place: u64) -> Result<Walk<'a, D>, AllocError>
        ensures begins { (run : PlayedRun)
            → TrackStandsFor D.hash self.now run
            → IfOk result (IsBegun D.hash run) }
        ensures settled { (run : PlayedRun)
            → TrackStandsFor D.hash self.now run
            → IfOk result (λ walk. (place_of walk ≡ 0)
            ⊎ ((sight_at run (place_of walk)).boundary ≡ true)) }
        ensures before { IfOk result (IsBefore place) }
    {
        if let Some(copy) = self.copies.last_before(place) {
            if let Some(walk) = copy.try_clone(self.alloc)? {
                return Ok(walk);
            }
        }
        self.run.begin(self.alloc)
    }

    /// Likewise, from not much more than so many steps before it, where there is a boundary; a copy
    /// is left there.
    pub fn walk_near(&mut self, place: u64, distance: u64) -> Result<Walk<'a, D>, AllocError>
        ensures begins { (run : PlayedRun)
            → TrackStandsFor D.hash self.old run
            → IfOk result (IsBegun D.hash run) }
        ensures before { IfOk result (IsBefore place) }
        ensures stays { (run : PlayedRun)
            → TrackStandsFor D.hash self.old run
            → TrackStandsFor D.hash self.new run }
        ensures same_run { self.new.run ≡ self.old.run }
    {
        let walk = self.walk_before(place)?;
        if walk.place().saturating_add(distance) >= place {
            return Ok(walk);
        }
        let near = walk.play_to_boundary(place - distance, place);
        if near.is_at_boundary() && near.place() < place {
            self.copies.leave_near(&near);
            Ok(near)
        } else {
            self.walk_before(place)
        }
    }

    /// A walk at a place, from power-on.
    pub fn walk_anew(&self, place: u64) -> Result<Walk<'a, D>, AllocError>
        ensures walks { IfOk result (Walks D.hash (played_run D.hash self.now.run)) }
        ensures place { place ≤ most_steps → IfOk result (λ walk. place_of walk ≡ place) }
    {
        let walk = self.run.begin(self.alloc)?;
        Ok(walk.play_up_to(place))
    }

    /// A walk at a place.
    pub fn walk_to(&self, place: u64) -> Result<Walk<'a, D>, AllocError>
        ensures { (run : PlayedRun)
            → TrackStandsFor D.hash self.now run
            → place ≤ most_steps
            → IfOk result (IsAt D.hash run place) }
    {
        let walk = self.walk_before(place.saturating_add(1))?;
        Ok(walk.play_up_to(place))
    }
}
