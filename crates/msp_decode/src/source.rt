use crate::constant::Gen;
use crate::reg::Reg;

/// A source operand. Indexed by R0 it is symbolic, and by R2 absolute.
#[derive(Clone, Copy, Debug, PartialEq, Eq)]
pub enum Source {
    Reg(Reg),
    /// A register and the extension word that is added to it.
    Indexed(Reg, u16),
    Indirect(Reg),
    /// Indirect, and the register is incremented.
    IndirectInc(Reg),
    Immediate(u16),
    Constant(Gen),
}
