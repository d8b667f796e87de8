ghost use Rattle.std.specs.{Prelude.{◌≡◌, option_to_list}, List.list_any};
ghost use Rattle.device_types.specs.ExecFlag.{accesses_in, writes_to, fetches_outside, runs_inside, ran_inside, enters_region, clears, clears_both, clears_e1, clears_e2, clears_e3, clears_e4, clears_e5, clears_e6, clears_e7, clears_e8, clears_e9};

use device_types::{Access, Bounds, BusRecord, META, Region, some_touches, some_writes};

/// Whether a record, seen with these bounds after one with this `pc`, clears the flag. The bounds
/// are copied, so that a caller that does not come here keeps none in memory.
#[inline(never)]
pub fn clears(last: Option<u16>, entry: &BusRecord, bounds: Bounds) -> bool
    ensures { result ≡ clears last (record { entry = entry.now; bounds = bounds }) }
{
    let bounds = &bounds;
    clears_both(last, entry, bounds) || clears_e3(last, entry, bounds) || clears_e4(entry, bounds)
}

/// Whether a record clears the EXEC flag and the second flag: E1, E2 and E5 to E9.
pub fn clears_both(last: Option<u16>, entry: &BusRecord, bounds: &Bounds) -> bool
    ensures { result ≡ clears_both last (record { entry = entry.now; bounds = bounds.now }) }
{
    clears_e1(entry, bounds)
        || clears_e2(last, entry, bounds)
        || clears_e5(entry, bounds)
        || clears_e6(entry, bounds)
        || clears_e7(entry, bounds)
        || clears_e8(entry, bounds)
        || clears_e9(entry, bounds)
}

// E1: a write touches ER.
fn clears_e1(entry: &BusRecord, bounds: &Bounds) -> bool
    ensures { result ≡ clears_e1 (record { entry = entry.now; bounds = bounds.now }) }
{
    has_write_to(bounds.executable_region(), entry)
}

// E2: ER is left from another place than its last instruction.
fn clears_e2(last: Option<u16>, entry: &BusRecord, bounds: &Bounds) -> bool
    ensures { result ≡ clears_e2 last (record { entry = entry.now; bounds = bounds.now }) }
{
    ran_inside(last, bounds.executable_region())
        && last != Some(bounds.er_max)
        && !runs_inside(entry, bounds)
}

/// Whether ER is entered: the record is in it, and the one before it was not, or there is none.
pub fn enters_region(last: Option<u16>, entry: &BusRecord, bounds: &Bounds) -> bool
    ensures { result ≡ enters_region last (record { entry = entry.now; bounds = bounds.now }) }
{
    runs_inside(entry, bounds) && !ran_inside(last, bounds.executable_region())
}

// E3: ER is entered at another place than its first instruction.
fn clears_e3(last: Option<u16>, entry: &BusRecord, bounds: &Bounds) -> bool
    ensures { result ≡ clears_e3 last (record { entry = entry.now; bounds = bounds.now }) }
{
    enters_region(last, entry, bounds) && entry.pc != bounds.er_min
}

// E4: an interrupt could be accepted in ER.
fn clears_e4(entry: &BusRecord, bounds: &Bounds) -> bool
    ensures { result ≡ clears_e4 (record { entry = entry.now; bounds = bounds.now }) }
{
    entry.irq && runs_inside(entry, bounds)
}

// E5: from outside ER the processor writes to OR.
fn clears_e5(entry: &BusRecord, bounds: &Bounds) -> bool
    ensures { result ≡ clears_e5 (record { entry = entry.now; bounds = bounds.now }) }
{
    writes_to(bounds.output_region(), entry.cpu) && !runs_inside(entry, bounds)
}

// E6: the DMA touches ER or OR.
fn clears_e6(entry: &BusRecord, bounds: &Bounds) -> bool
    ensures { result ≡ clears_e6 (record { entry = entry.now; bounds = bounds.now }) }
{
    some_touches(entry.dma, bounds.executable_region())
        || some_touches(entry.dma, bounds.output_region())
}

// E7: the DMA has an access while ER runs.
fn clears_e7(entry: &BusRecord, bounds: &Bounds) -> bool
    ensures { result ≡ clears_e7 (record { entry = entry.now; bounds = bounds.now }) }
{
    entry.dma.is_some() && runs_inside(entry, bounds)
}

// E8: ER fetches a word that is not wholly in ER.
fn clears_e8(entry: &BusRecord, bounds: &Bounds) -> bool
    ensures { result ≡ clears_e8 (record { entry = entry.now; bounds = bounds.now }) }
{
    let region = bounds.executable_region();
    runs_inside(entry, bounds)
        && (fetches_outside(region, entry.cpu) || fetches_outside(region, entry.dma))
}

// E9: a write touches the metadata, or the step is refused.
fn clears_e9(entry: &BusRecord, bounds: &Bounds) -> bool
    ensures { result ≡ clears_e9 (record { entry = entry.now; bounds = bounds.now }) }
{
    has_write_to(META, entry) || entry.reset.is_some()
}

/// Whether one of the record's accesses writes to the region.
pub fn has_write_to(region: Region, entry: &BusRecord) -> bool
    ensures { result ≡ list_any (writes_to region) (accesses_in entry.now) }
{
    writes_to(region, entry.cpu) || writes_to(region, entry.dma)
}

/// Whether there is an access, and it writes to the region.
#[inline(always)]
pub fn writes_to(region: Region, access: Option<Access>) -> bool
    ensures { result ≡ list_any (writes_to region) (option_to_list access) }
{
    some_writes(access) && some_touches(access, region)
}

/// Whether there is an access, and it fetches a word that is not wholly in the region.
#[inline(always)]
pub fn fetches_outside(region: Region, access: Option<Access>) -> bool
    ensures { result ≡ list_any (fetches_outside region) (option_to_list access) }
{
    match access {
        Some(Access::Fetch(place)) => !(region.contains(place) && region.contains_next(place)),
        _ => false,
    }
}

/// Whether the record is in the executable region.
pub fn runs_inside(entry: &BusRecord, bounds: &Bounds) -> bool
    ensures { result ≡ runs_inside (record { entry = entry.now; bounds = bounds.now }) }
{
    bounds.executable_region().contains(entry.pc)
}

/// Whether the record before it, whose `pc` is given, was in the region.
#[inline(always)]
pub fn ran_inside(last: Option<u16>, region: Region) -> bool
    ensures { result ≡ ran_inside last region }
{
    last.is_some_and(|pc| region.contains(pc))
}
