ghost use Rattle.std.specs.Prelude.{◌≡◌, true, false, Option};
ghost use Rattle.device_types.specs.{declared.bus_record.BusRecord.BusRecord, ExecFlag.clears_e4, TraceFlag.{IsRecordOf, is_quiet}};

use crate::clearing::{fetches_outside, ran_inside, writes_to};
use device_types::{Bounds, META, Signals};

/// Whether a step that is about to do this, after a record with this `pc`, is quiet, unless it is
/// refused: ER is neither entered nor left, the DMA has no access, and that of the processor clears
/// no flag of a run. What both flags of the device ask of a step is so asked once.
#[inline(always)]
pub fn is_quiet(last: Option<u16>, now: &Signals, bounds: &Bounds) -> bool
    ensures { (entry : BusRecord)
        → IsRecordOf now.now entry
        → result ≡ true
        → is_quiet last (record { entry = entry; bounds = bounds.now }) ≡ true }
{
    let region = bounds.executable_region();
    let inside = region.contains(now.pc);
    inside == ran_inside(last, region)
        && now.dma.is_none()
        && !writes_to(region, now.cpu)
        && !writes_to(META, now.cpu)
        && !(inside && fetches_outside(region, now.cpu))
        && (inside || !writes_to(bounds.output_region(), now.cpu))
}

/// Whether in a step that is about to do this an interrupt could be accepted in ER.
#[inline(always)]
pub fn may_accept(now: &Signals, bounds: &Bounds) -> bool
    ensures { (entry : BusRecord)
        → IsRecordOf now.now entry
        → result ≡ clears_e4 (record { entry = entry; bounds = bounds.now }) }
{
    now.irq && bounds.executable_region().contains(now.pc)
}
