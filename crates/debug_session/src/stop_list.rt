ghost use Rattle.std.specs.{Prelude.{◌≡◌, ◌==◌, MatchOption, true, false, not}, List.filter};
ghost use Rattle.debug_session.specs.{Stops.{no_stops, has_breakpoint, has_watch, is_empty, same_watch, with_change}, Watched.is_hit};

use crate::seen_accesses::hit_by;
use crate::stop_change::StopChange;
use crate::watch::{Watch, same_watch};
use arrayvec::ArrayVec;
use device_types::Access;
use std::marker::Model;

const MOST_BREAKPOINTS: usize = 64;

const MOST_WATCHES: usize = 16;

/// What is asked to stop a device: breakpoints, watches, and a number of steps.
#[derive(Drop)]
pub struct StopList {
    breakpoints: ArrayVec<u16, MOST_BREAKPOINTS>,
    watches: ArrayVec<Watch, MOST_WATCHES>,
    until: Option<u64>,
}

impl Model for StopList {
    ghost use Rattle.debug_session.specs.Stops.{Stops as Asked};

    ghost Value = { Asked };

    ghost view = { λ stops. record {
      breakpoints = stops.breakpoints.items;
      watches = stops.watches.items;
      until = stops.until;
    } };
}

impl StopList {
    pub fn new() -> StopList
        ensures { result ≡ no_stops }
    {
        StopList {
            breakpoints: ArrayVec::new(),
            watches: ArrayVec::new(),
            until: None,
        }
    }

    /// Whether nothing is asked to stop a device.
    pub fn is_empty(&self) -> bool
        ensures { result ≡ is_empty self.now }
    {
        self.breakpoints.is_empty() && self.watches.is_empty() && self.until.is_none()
    }

    pub fn watches(&self) -> &[Watch]
        ensures { result.now ≡ self.now.watches }
    {
        self.watches.as_slice()
    }

    pub fn set_until(&mut self, until: Option<u64>)
        ensures { self.new ≡ record self.old { until = until } }
    {
        self.until = until;
    }

    pub fn until(&self) -> Option<u64>
        ensures { result ≡ self.now.until }
    {
        self.until
    }

    /// Whether an access hits a watch.
    pub fn is_hit(&self, access: Access) -> bool
        ensures { result ≡ is_hit self.now.watches access }
    {
        self.watches
            .iter()
            .any(|watch| hit_by(&access, *watch).is_some())
    }

    pub fn has_breakpoint(&self, place: u16) -> bool
        ensures { result ≡ has_breakpoint self.now place }
    {
        self.breakpoints.contains(&place)
    }

    fn has_watch(&self, wanted: &Watch) -> bool
        ensures { result ≡ has_watch self.now wanted.now }
    {
        self.watches.iter().any(|watch| same_watch(watch, wanted))
    }

    /// Sets or takes back a breakpoint or a watch. Whether it fits, or is held.
    pub fn change(&mut self, change: StopChange) -> bool
        ensures { MatchOption (with_change self.old change)
            ((result ≡ false) × (self.new ≡ self.old))
            (λ stops. (result ≡ true) × (self.new ≡ stops)) }
    {
        match change {
            StopChange::SetBreakpoint(place) => {
                self.has_breakpoint(place) || self.breakpoints.try_push(place).is_ok()
            }
            StopChange::SetWatch(watch) => {
                self.has_watch(&watch) || self.watches.try_push(watch).is_ok()
            }
            StopChange::ClearBreakpoint(place) => {
                remove_breakpoint(&mut self.breakpoints, place);
                true
            }
            StopChange::ClearWatch(watch) => {
                remove_watch(&mut self.watches, &watch);
                true
            }
        }
    }
}

fn remove_breakpoint(breakpoints: &mut ArrayVec<u16, MOST_BREAKPOINTS>, place: u16)
    ensures { breakpoints.new.items ≡ filter (λ one. not (one == place)) breakpoints.old.items }
{
    breakpoints.retain(|breakpoint| *breakpoint != place);
}

fn remove_watch(watches: &mut ArrayVec<Watch, MOST_WATCHES>, unwanted: &Watch)
    ensures { watches.new.items
        ≡ filter (λ one. not (same_watch one unwanted.now)) watches.old.items }
{
    watches.retain(|watch| !same_watch(watch, unwanted));
}
