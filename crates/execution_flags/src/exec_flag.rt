ghost use Rattle.device_types.specs.ExecFlag.{exec, clears};

use crate::clearing::clears;
use crate::conditions::Conditions;
use crate::quiet::may_accept;
use crate::run_flag::RunFlag;
use device_types::{Bounds, BusRecord, Signals};

/// The EXEC flag after the records seen.
pub type ExecFlag = RunFlag<ExecConditions>;

/// What clears the EXEC flag.
#[derive(Clone, Copy, Debug)]
pub struct ExecConditions;

impl Conditions for ExecConditions {
    ghost use Rattle.execution_flags.specs.RunFlag.{exec-of_run};

    ghost flag = { exec };

    ghost clears = { clears };

    #[inline(always)]
    fn clears(last: Option<u16>, entry: &BusRecord, bounds: Bounds) -> bool {
        clears(last, entry, bounds)
    }

    #[inline(always)]
    fn spares(now: &Signals, bounds: &Bounds) -> bool {
        !may_accept(now, bounds)
    }

    ghost of_run = { exec-of_run };
}
