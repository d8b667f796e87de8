ghost use Rattle.part_definitions.specs.TrustedFlag.{aux, clears_aux};

use crate::aux_clearing::{clears_aux, may_be_interrupted, may_write_vectors};
use crate::conditions::Conditions;
use crate::run_flag::RunFlag;
use device_types::{Bounds, BusRecord, Signals};

/// The second flag after the records seen.
pub type AuxFlag = RunFlag<AuxConditions>;

/// What clears the second flag.
#[derive(Clone, Copy, Debug)]
pub struct AuxConditions;

impl Conditions for AuxConditions {
    ghost use Rattle.execution_flags.specs.RunFlag.{aux-of_run};

    ghost flag = { aux };

    ghost clears = { clears_aux };

    #[inline(always)]
    fn clears(last: Option<u16>, entry: &BusRecord, bounds: Bounds) -> bool {
        clears_aux(last, entry, bounds)
    }

    #[inline(always)]
    fn spares(now: &Signals, bounds: &Bounds) -> bool {
        !may_write_vectors(now) && !may_be_interrupted(now, bounds)
    }

    ghost of_run = { aux-of_run };
}
