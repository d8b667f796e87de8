ghost use Rattle.std.specs.Prelude.{ℕ, List, OnOk};
ghost use Rattle.sha2.specs.Sha256.{sha256};
ghost use Rattle.desk_memory.specs.{Entry.{Entry, with_note}, Kept.{CountsOrLacks, IsKept, LeavesOr}, KeyMark.key_mark};

use crate::device_state::DeviceState;
use crate::memory_fault::MemoryFault;

/// One that keeps the states of a desk's devices. After an error it is opened anew.
pub trait Memory {
    /// The entries that it may have.
    ghost stands: { Self → List Entry → Type 0 };

    /// The entries that may be found in it after a crash at this moment.
    ghost may_leave: { Self → List Entry → Type 0 };

    /// What was read of it so far is what was written.
    ghost is_honest: { Self → Type 0 };

    /// Its file alone has what it keeps: whoever reads that finds all of it.
    ghost is_whole: { Self → Type 0 };

    /// How often it failed.
    ghost faults: { Self → ℕ };

    /// It takes memory.
    ghost lacks: { Type 0 };

    /// Notes the state of the device of a name, served under this key, for the next `settle`. It
    /// stays at home where it was.
    fn note(&mut self, name: &[u8], key: &[u8; 64], state: DeviceState) -> Result<(), MemoryFault>
        ensures honest { is_honest self.new → is_honest self.old }
        ensures noted { OnOk result ((entries : List Entry) → stands self.old entries
            → stands self.new (with_note entries
            (record { name = name.now; mark = key_mark sha256 key.now; state = state }))) }
        ensures crash { (found : List Entry) → may_leave self.new found
            → may_leave self.old found }
        ensures counts { CountsOrLacks faults lacks self.old self.new result };

    /// Keeps what was noted: once this is `Ok` no crash takes it back.
    fn settle(&mut self) -> Result<(), MemoryFault>
        ensures honest { is_honest self.new → is_honest self.old }
        ensures same { OnOk result ((entries : List Entry) → stands self.old entries
            → stands self.new entries) }
        ensures kept { OnOk result ((entries : List Entry) → stands self.old entries
            → is_honest self.new → IsKept may_leave self.new entries) }
        ensures whole { OnOk result (is_whole self.new) }
        ensures crash { (entries : List Entry) → stands self.old entries
            → is_honest self.new → LeavesOr may_leave self.old self.new entries }
        ensures counts { CountsOrLacks faults lacks self.old self.new result };
}
