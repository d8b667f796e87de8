ghost use Rattle.std.specs.Prelude.{◌↔◌, List, IsTrue};
ghost use Rattle.device_types.specs.ExecFlag.{SeenRecord};
ghost use Rattle.execution_flags.specs.UnclearedStart.{UnclearedStart};

use crate::conditions::Conditions;

/// A flag is set exactly where one of the records seen starts a run, and neither it nor a later one
/// clears the flag.
pub fn flag_is_set_by_an_uncleared_start<C: Conditions>()
    ensures { (records : List SeenRecord)
        → IsTrue (C.flag records) ↔ UnclearedStart C.clears records }
{}
