use device_types::{Access, Bounds, Kind, Rule};

/// What a line of a trace file says of one step. The secrets are blanked: what was read of the key
/// or the exclusive stack, and what was written to the stack, stands as 0.
#[derive(Clone, Copy, Debug, PartialEq, Eq)]
pub struct TraceLine {
    pub kind: Kind,
    pub pc: u16,
    /// The access of the processor or the ROM.
    pub cpu: Option<Access>,
    pub dma: Option<Access>,
    /// An interrupt could be accepted in this step.
    pub irq: bool,
    /// The script asks for a reset in this step.
    pub asked: bool,
    /// The word that a proposed fetch would read.
    pub word: u16,
    /// The word or byte that the processor or the ROM read.
    pub value: u16,
    /// The word that the DMA read.
    pub dma_value: u16,
    /// As they stood before the step.
    pub bounds: Bounds,
    /// The EXEC flag after the step.
    pub exec: bool,
    /// The rule that the step broke.
    pub rule: Option<Rule>,
}
