use part_definitions::CpuAccess;

/// One of the three accesses of an interrupt entry.
#[derive(Clone, Copy, Debug, PartialEq, Eq)]
pub enum EntryAccess {
    PushPc,
    PushSr,
    ReadVector,
}

/// What the processor is about to do.
#[derive(Clone, Copy, Debug, PartialEq, Eq)]
pub enum Phase {
    /// Between two instructions.
    Boundary,
    /// In an instruction, before this access.
    Executing(CpuAccess),
    /// In an interrupt entry with this vector.
    Entering(EntryAccess, u16),
}
