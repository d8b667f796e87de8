ghost use Rattle.std.specs.Prelude.{◌≡◌, true, false, is_none};
ghost use Rattle.device_types.specs.{declared.bounds.Bounds.Bounds as SeenBounds, TraceFlag.IsRecordOf};
ghost use Rattle.part_definitions.specs.TrustedFlag.{reads_vector, handler_read, enters_elsewhere, clears_f3, clears_f4, clears_f10, clears_aux};

use crate::clearing::{clears_both, enters_region, has_write_to, runs_inside, writes_to};
use crate::start::fetches_first;
use device_types::{Access, Bounds, BusRecord, Kind, Region, Signals, VECTORS, even};

/// Whether a record, seen with these bounds after one with this `pc`, clears the flag. The bounds
/// are copied, so that a caller that does not come here keeps none in memory.
#[inline(never)]
pub fn clears_aux(last: Option<u16>, entry: &BusRecord, bounds: Bounds) -> bool
    ensures { result ≡ clears_aux last (record { entry = entry.now; bounds = bounds }) }
{
    let bounds = &bounds;
    clears_both(last, entry, bounds)
        || clears_f3(last, entry, bounds)
        || clears_f4(entry, bounds)
        || clears_f10(entry, bounds)
}

/// Whether in a step that is about to do this, in which the DMA has no access, a write touches the
/// vectors.
#[inline(always)]
pub fn may_write_vectors(now: &Signals) -> bool
    ensures { (entry : BusRecord) (bounds : SeenBounds)
        → IsRecordOf now.now entry
        → is_none entry.dma ≡ true
        → result ≡ clears_f10 (record { entry = entry; bounds = bounds }) }
{
    writes_to(VECTORS, now.cpu)
}

/// Whether a step that is about to do this is one of an interrupt's entry, in ER. What it reads is
/// not known before it is read.
#[inline(always)]
pub fn may_be_interrupted(now: &Signals, bounds: &Bounds) -> bool
    ensures { (entry : BusRecord)
        → IsRecordOf now.now entry
        → result ≡ false
        → clears_f4 (record { entry = entry; bounds = bounds.now }) ≡ false }
{
    now.kind == Kind::Irq && bounds.executable_region().contains(now.pc)
}

// F3: ER is entered otherwise than by the opcode fetch at its first instruction.
fn clears_f3(last: Option<u16>, entry: &BusRecord, bounds: &Bounds) -> bool
    ensures { result ≡ clears_f3 last (record { entry = entry.now; bounds = bounds.now }) }
{
    enters_region(last, entry, bounds) && !fetches_first(entry, bounds)
}

// F4: ER is interrupted, and the handler is not in ER.
fn clears_f4(entry: &BusRecord, bounds: &Bounds) -> bool
    ensures { result ≡ clears_f4 (record { entry = entry.now; bounds = bounds.now }) }
{
    runs_inside(entry, bounds) && enters_elsewhere(bounds.executable_region(), entry)
}

// F10: a write touches the vectors.
fn clears_f10(entry: &BusRecord, bounds: &Bounds) -> bool
    ensures { result ≡ clears_f10 (record { entry = entry.now; bounds = bounds.now }) }
{
    has_write_to(VECTORS, entry)
}

// An interrupt whose handler is not in the region.
fn enters_elsewhere(region: Region, entry: &BusRecord) -> bool
    ensures { result ≡ enters_elsewhere region entry.now }
{
    reads_vector(entry) && !region.contains(handler_read(entry))
}

// An interrupt entry reads its vector.
fn reads_vector(entry: &BusRecord) -> bool
    ensures { result ≡ reads_vector entry.now }
{
    entry.kind == Kind::Irq && matches!(entry.cpu, Some(Access::Read(_, _)))
}

// The handler that the vector names: its word, with bit 0 cleared.
fn handler_read(entry: &BusRecord) -> u16
    ensures { result ≡ handler_read entry.now }
{
    even(entry.value)
}
