ghost use Rattle.std.specs.Prelude.{◌≡◌, ◌<◌};
ghost use Rattle.word_arith.specs.{Number.modulus, Op1.{shifted_size, shift_result, shift_of, extend_of}};

use crate::flags::Flags;
use crate::op1::Op1;
use crate::size::Size;

// Shifts right by one place and puts a bit in at the top; the bit that leaves is the carry.
fn shift_right(size: Size, dst: u16, top: bool) -> (u16, Flags)
    ensures value { result ≡ shift_of size dst top }
    ensures fits { result.0 < modulus size }
{
    let operand = size.low_part(dst);
    let number = match size {
        Size::Byte => operand / 2 + u16::from(top) * 0x80,
        Size::Word => operand / 2 + u16::from(top) * 0x8000,
    };
    (
        number,
        Flags::of_result(size, number, operand % 2 == 1, false),
    )
}

// Copies bit 7 to bits 8 to 15.
fn extend_sign(dst: u16) -> (u16, Flags)
    ensures { result ≡ extend_of dst }
{
    let low = Size::Byte.low_part(dst);
    let word = if Size::Byte.is_negative(low) {
        low + 0xFF00
    } else {
        low
    };
    (word, Flags::of_result(Size::Word, word, word != 0, false))
}

/// Result and flags of an operation of one operand (SLAU049). In a byte RRC and RRA take the low
/// byte. SWPB and SXT are of words, whatever the size.
#[tactic(auto, unfolding(crate::specs::Op1::shift_result))]
pub fn shift(op: Op1, size: Size, dst: u16, flags: Flags) -> (u16, Flags)
    ensures value { result ≡ shift_result op size dst flags }
    ensures fits { result.0 < modulus (shifted_size op size) }
{
    match op {
        Op1::Rrc => shift_right(size, dst, flags.c),
        Op1::Rra => shift_right(size, dst, size.is_negative(size.low_part(dst))),
        Op1::Swpb => (dst % 0x100 * 0x100 + dst / 0x100, flags),
        Op1::Sxt => extend_sign(dst),
    }
}
