ghost use Rattle.std.specs.Prelude.{◌≡◌, ◌<◌};

/// The size of an operand: 8 or 16 bits.
#[derive(Clone, Copy, Debug, PartialEq, Eq)]
pub enum Size {
    Byte,
    Word,
}

impl Size {
    ghost use Rattle.word_arith.specs.Number.{modulus, low_part, inverse, is_negative};

    /// The operand of this size in a word.
    pub fn low_part(self, word: u16) -> u16
        ensures value { result ≡ low_part self word }
        ensures fits { result < modulus self }
    {
        match self {
            Size::Byte => word % 0x100,
            Size::Word => word,
        }
    }

    // All bits of an operand inverted.
    pub(crate) fn inverse(self, operand: u16) -> u16
        requires { operand < modulus self }
        ensures value { result ≡ inverse self operand }
        ensures fits { result < modulus self }
    {
        match self {
            Size::Byte => 0xFF - operand,
            Size::Word => !operand,
        }
    }

    // Whether the top bit is set.
    pub(crate) fn is_negative(self, operand: u16) -> bool
        ensures { result ≡ is_negative self operand }
    {
        match self {
            Size::Byte => operand >= 0x80,
            Size::Word => operand >= 0x8000,
        }
    }
}
