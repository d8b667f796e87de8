ghost use Rattle.std.specs.Prelude.{◌≡◌, ℕ, List, Option, IfSome, IsTrue, IsFalse};
ghost use Rattle.device_types.specs.{declared.{access.Access.Access, bus_record.BusRecord.BusRecord, kind.Kind.Kind, rule.Rule.Rule}};
ghost use Rattle.device_trace.specs.{Blank.{blank_record, is_secret}, Logs.released_words_after};
ghost use Rattle.key_isolation.specs.Openness.{IsOpen, releases_word};
ghost use Rattle.part_definitions.specs.Memory.{is_image_place};

/// The isolation hides key and exclusive stack alone: a record whose accesses are open stays as it
/// is, no place that an image may hold is a secret, and a word is released only where a step of the
/// ROM that is not refused writes to the MAC.
pub fn only_key_and_stack_are_hidden()
    ensures records { (entry : BusRecord)
        → IfSome entry.cpu IsOpen → IfSome entry.dma IsOpen → blank_record entry ≡ entry }
    ensures places { (place : ℕ) → IsTrue (is_image_place place) → IsFalse (is_secret place) }
    ensures released { (rule : Option Rule) (kind : Kind) (access : Option Access) (words : List ℕ)
        → IsFalse (releases_word rule kind access)
        → released_words_after rule kind access words ≡ words }
{}
