ghost use Rattle.std.specs.Prelude.{◌≡◌};

use crate::size::Size;

/// The flags of an operation: carry, zero, negative and overflow.
#[derive(Clone, Copy, Debug, PartialEq, Eq)]
pub struct Flags {
    pub c: bool,
    pub z: bool,
    pub n: bool,
    pub v: bool,
}

impl Flags {
    ghost use Rattle.word_arith.specs.Flags.{result_flags};

    // The flags of a result, beside the carry and the overflow that came with it.
    pub(crate) fn of_result(size: Size, outcome: u16, carry: bool, overflow: bool) -> Flags
        ensures { result ≡ result_flags size outcome carry overflow }
    {
        Flags {
            c: carry,
            z: outcome == 0,
            n: size.is_negative(outcome),
            v: overflow,
        }
    }
}
