use device_types::{Access, Kind, Signals};

/// What a step proposes, as fakes in place of the processor, the ROM and the DMA make it up.
pub fn proposal(
    kind: Kind,
    pc: u16,
    cpu: Option<Access>,
    dma: Option<Access>,
    irq: bool,
) -> Signals {
    Signals {
        kind,
        pc,
        cpu,
        dma,
        irq,
        word: 0,
        opcode: false,
        script_reset: false,
    }
}
