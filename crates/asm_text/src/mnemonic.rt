use crate::emulated::Emulated;
use msp_decode::{Cond, One};
use word_arith::Op2;

/// An instruction by its name. JNZ, JZ, JLO and JHS are JNE, JEQ, JNC and JC.
#[derive(Clone, Copy, Debug, PartialEq, Eq)]
pub enum Mnemonic {
    Two(Op2),
    One(One),
    Reti,
    Jump(Cond),
    Emulated(Emulated),
}
