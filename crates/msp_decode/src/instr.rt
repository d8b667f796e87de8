use crate::cond::Cond;
use crate::dest::Dest;
use crate::one::One;
use crate::source::Source;
use word_arith::{Op2, Size};

/// An instruction.
#[derive(Clone, Copy, Debug, PartialEq, Eq)]
pub enum Instr {
    Two(Op2, Size, Source, Dest),
    One(One, Size, Source),
    Reti,
    /// A jump by a number of words from the word after it.
    Jump(Cond, i16),
}
