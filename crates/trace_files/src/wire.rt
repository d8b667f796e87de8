ghost use Rattle.std.specs.Prelude.{◌≡◌};
ghost use Rattle.trace_files.specs.{Wire.wire_code, WaveText.is_bit};

/// A wire of the waveform. The bits of `StepKind`, `BrokenRule` and the two operations are
/// characters.
#[derive(Clone, Copy, Debug, PartialEq, Eq)]
pub enum Wire {
    Pc,
    /// `boot`, `cpu`, `idle`, `irq` or `rom`.
    StepKind,
    /// An interrupt could be accepted.
    Irq,
    /// The script asks for a reset.
    Asked,
    /// The rule that the step broke, or 0.
    BrokenRule,
    /// `f` a fetch, `r` and `b` a read of a word and a byte, `w` and `c` a write of them.
    CpuOp,
    CpuAddress,
    /// What was read or written.
    CpuData,
    /// The word that a proposed fetch would read.
    FetchWord,
    DmaOp,
    DmaAddress,
    DmaData,
    ErMin,
    ErMax,
    OrMin,
    OrMax,
    /// The EXEC flag before the step, as the bounds.
    Exec,
    /// The registers but PC and the constant generator, at the last boundary before the step.
    Sp,
    Sr,
    R4,
    R5,
    R6,
    R7,
    R8,
    R9,
    R10,
    R11,
    R12,
    R13,
    R14,
    R15,
    /// The second flag before the step.
    Aux,
    /// The interrupt flag of the timer before the step.
    TimerFlag,
    /// The pins, as a read in the step has them.
    Pins,
    /// The byte that the step sent by the serial port.
    Sent,
    /// The byte that a read of SRXD gave in the step.
    Received,
}

/// The wires of a trace line, in the order in which they are declared.
pub const LINE_WIRES: [Wire; 17] = [
    Wire::Pc,
    Wire::StepKind,
    Wire::Irq,
    Wire::Asked,
    Wire::BrokenRule,
    Wire::CpuOp,
    Wire::CpuAddress,
    Wire::CpuData,
    Wire::FetchWord,
    Wire::DmaOp,
    Wire::DmaAddress,
    Wire::DmaData,
    Wire::ErMin,
    Wire::ErMax,
    Wire::OrMin,
    Wire::OrMax,
    Wire::Exec,
];

/// The other wires, which are declared behind them: of the registers, of the two flags of which no
/// line tells, and of the ports.
pub const OTHER_WIRES: [Wire; 19] = [
    Wire::Sp,
    Wire::Sr,
    Wire::R4,
    Wire::R5,
    Wire::R6,
    Wire::R7,
    Wire::R8,
    Wire::R9,
    Wire::R10,
    Wire::R11,
    Wire::R12,
    Wire::R13,
    Wire::R14,
    Wire::R15,
    Wire::Aux,
    Wire::TimerFlag,
    Wire::Pins,
    Wire::Sent,
    Wire::Received,
];

impl Wire {
    /// Whether it has one bit.
    pub fn is_bit(self) -> bool
        ensures { result ≡ is_bit self }
    {
        matches!(
            self,
            Wire::Irq | Wire::Asked | Wire::Exec | Wire::Aux | Wire::TimerFlag
        )
    }

    /// The character by which its changes name it.
    pub fn code(self) -> u8
        ensures { result ≡ wire_code self }
    {
        match self {
            Wire::Pc => b'A',
            Wire::StepKind => b'B',
            Wire::Irq => b'C',
            Wire::Asked => b'D',
            Wire::BrokenRule => b'E',
            Wire::CpuOp => b'F',
            Wire::CpuAddress => b'G',
            Wire::CpuData => b'H',
            Wire::FetchWord => b'I',
            Wire::DmaOp => b'J',
            Wire::DmaAddress => b'K',
            Wire::DmaData => b'L',
            Wire::ErMin => b'M',
            Wire::ErMax => b'N',
            Wire::OrMin => b'O',
            Wire::OrMax => b'P',
            Wire::Exec => b'Q',
            Wire::Sp => b'R',
            Wire::Sr => b'S',
            Wire::R4 => b'T',
            Wire::R5 => b'U',
            Wire::R6 => b'V',
            Wire::R7 => b'W',
            Wire::R8 => b'X',
            Wire::R9 => b'Y',
            Wire::R10 => b'Z',
            Wire::R11 => b'[',
            Wire::R12 => b'\\',
            Wire::R13 => b']',
            Wire::R14 => b'^',
            Wire::R15 => b'_',
            Wire::Aux => b'`',
            Wire::TimerFlag => b'a',
            Wire::Pins => b'b',
            Wire::Sent => b'c',
            Wire::Received => b'd',
        }
    }
}
