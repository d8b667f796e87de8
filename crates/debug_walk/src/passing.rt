ghost use Rattle.std.specs.Prelude.{◌≡◌};
ghost use Rattle.debug_walk.specs.Passing.{goes_over, is_passed};

use debug_session::StopList;
use device_core::Quiet;
use device_types::Access;

/// What a row of steps goes over while a debugger looks for a cause: neither breakpoints nor
/// watched bytes, and where each instruction counts, sleep alone.
#[derive(Clone, Copy)]
pub struct Passing<'s> {
    stops: &'s StopList,
    asleep: bool,
}

impl<'s> Passing<'s> {
    pub fn new(stops: &'s StopList, asleep: bool) -> Passing<'s>
        ensures stops { result.stops.now ≡ stops.now }
        ensures asleep { result.asleep ≡ asleep }
    {
        Passing { stops, asleep }
    }

    pub fn stops(&self) -> &StopList
        ensures { result.now ≡ self.now.stops.now }
    {
        self.stops
    }

    // No access, or one that stops nothing.
    #[inline(always)]
    fn is_passed(&self, access: Option<Access>) -> bool
        ensures { result ≡ is_passed self.now.stops.now self.now.asleep access }
    {
        match access {
            None => true,
            Some(_) if self.asleep => false,
            Some(Access::Fetch(place)) => !self.stops.has_breakpoint(place),
            Some(access) => !self.stops.is_hit(access),
        }
    }
}

impl Quiet for Passing<'_> {
    ghost quiet = { λ passing cpu dma. goes_over passing.stops.now passing.asleep cpu dma };

    #[inline(always)]
    fn is_quiet(&self, cpu: Option<Access>, dma: Option<Access>) -> bool {
        self.is_passed(cpu) && self.is_passed(dma)
    }
}
