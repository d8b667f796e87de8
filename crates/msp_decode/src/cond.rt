ghost use Rattle.std.specs.Prelude.{◌≡◌, ◌<◌};

use crate::value_numbered::value_numbered;

/// When a jump is taken: by Z, by C, by N, by N and V, or always; in the order of their numbers
/// from 0.
#[derive(Clone, Copy, Debug, PartialEq, Eq)]
pub enum Cond {
    /// Z is 0.
    Ne,
    /// Z is 1.
    Eq,
    /// C is 0.
    Nc,
    /// C is 1.
    C,
    /// N is 1.
    N,
    /// N is V.
    Ge,
    /// N differs from V.
    L,
    Always,
}

impl Cond {
    ghost use Rattle.msp_decode.specs.{Table.cond_number, Field.cond_of};

    // The condition's number in a jump's word.
    pub(crate) fn number(self) -> u16
        ensures value { result ≡ cond_number self }
        ensures fits { result < 8 }
    {
        self as u16
    }

    // The condition of a number.
    pub(crate) fn from_number(number: u16) -> Cond
        requires { number < 8 }
        ensures { result ≡ cond_of number }
    {
        value_numbered!(number; Cond: Ne, Eq, Nc, C, N, Ge, L, Always)
    }
}
