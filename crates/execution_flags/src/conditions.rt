use device_types::{Bounds, BusRecord, Signals};

/// What clears a flag that a run sets.
pub trait Conditions: Copy {
    ghost use Rattle.std.specs.Prelude.{◌≡◌, Bool, Option, true, false};
    ghost use Rattle.device_types.specs.{declared.bus_record.BusRecord.BusRecord, Address.Address, ExecFlag.{SeenHistory, SeenRecord, is_set}, TraceFlag.{IsRecordOf, is_quiet}};

    /// The flag, after the records seen.
    ghost flag: { SeenHistory → Bool };

    /// Whether a record clears it, after one with this `pc`.
    ghost clears: { Option Address → SeenRecord → Bool };

    /// Whether a record, seen with these bounds after one with this `pc`, clears the flag.
    fn clears(last: Option<u16>, entry: &BusRecord, bounds: Bounds) -> bool
        ensures { result ≡ clears last (record { entry = entry.now; bounds = bounds }) };

    /// Whether a quiet step that is about to do this does not clear the flag, unless it is refused.
    fn spares(now: &Signals, bounds: &Bounds) -> bool
        ensures { (last : Option Address) (entry : BusRecord)
            → IsRecordOf now.now entry
            → is_quiet last (record { entry = entry; bounds = bounds.now }) ≡ true
            → result ≡ true
            → clears last (record { entry = entry; bounds = bounds.now }) ≡ false };

    /// It is set where a record starts a run, and neither it nor a later one clears it.
    ghost of_run: { (records : SeenHistory) → flag records ≡ is_set clears records };
}
