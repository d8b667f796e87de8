use crate::reg::Reg;

/// A destination operand. Indexed by R0 it is symbolic, by R2 absolute, and by R3 its base is 0.
#[derive(Clone, Copy, Debug, PartialEq, Eq)]
pub enum Dest {
    Reg(Reg),
    /// A register and the extension word that is added to it.
    Indexed(Reg, u16),
}
