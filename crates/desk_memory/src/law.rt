ghost use Rattle.desk_memory.specs.Law.{IsLastNoted, IsOwnerKept, IsOwnerNoted};

/// An entry is the last of its device, and leaves that of each other device as it was.
pub fn entry_is_last()
    ensures { IsLastNoted }
{}

/// No entry takes a key from the name that it stands under.
pub fn owner_is_kept()
    ensures { IsOwnerKept }
{}

/// A key that stands under no other name stands under that of its entry.
pub fn owner_is_noted()
    ensures { IsOwnerNoted }
{}
