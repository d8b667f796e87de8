ghost use Rattle.std.specs.Prelude.{[]};
ghost use Rattle.execution_flags.specs.RunFlag.{RunFlagStandsFor, flag_of_run};

use crate::conditions::Conditions;
use crate::start::starts_run;
use device_types::{Bounds, BusRecord, Signals, TraceFlag};
use std::marker::PhantomData;

/// A flag after the records seen, which a run sets and these conditions clear.
#[derive(Clone, Copy, Debug)]
pub struct RunFlag<C> {
    is_set: bool,
    conditions: PhantomData<C>,
}

impl<C: Conditions> RunFlag<C> {
    /// A flag that has seen no record.
    pub fn new() -> RunFlag<C>
        ensures { RunFlagStandsFor C.flag result [] }
    {
        RunFlag {
            is_set: false,
            conditions: PhantomData,
        }
    }
}

impl<C: Conditions> TraceFlag for RunFlag<C> {
    ghost flag = { flag_of_run C.flag };

    #[inline(always)]
    fn see(&mut self, last: Option<u16>, entry: &BusRecord, bounds: &Bounds) {
        self.is_set = (self.is_set || starts_run(entry, bounds))
            && !C::clears(last, entry, *bounds);
    }

    fn value(&self) -> bool {
        self.is_set
    }

    #[inline(always)]
    fn stays_clear(&self, pc: u16, er_min: u16) -> bool {
        !self.is_set && pc != er_min
    }

    #[inline(always)]
    fn stays(&self, quiet: bool, now: &Signals, bounds: &Bounds) -> bool {
        if self.is_set {
            quiet && C::spares(now, bounds)
        } else {
            now.pc != bounds.er_min
        }
    }
}
