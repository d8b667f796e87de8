ghost use Rattle.std.specs.Prelude.{◌≡◌, ◌<◌};
ghost use Rattle.word_arith.specs.{Number.modulus, Op2.{alu_result, alu_of, test_of, dadd_of}};

use crate::decimal_sum::bcd_add;
use crate::flags::Flags;
use crate::op2::Op2;
use crate::size::Size;
use crate::sum::add;

// A result of bits with its flags: the carry says that it is not 0.
#[inline(always)]
fn test(size: Size, outcome: u16, overflow: bool) -> (u16, Flags)
    ensures value { result ≡ test_of size outcome overflow }
    ensures same { result.0 ≡ outcome }
{
    (
        outcome,
        Flags::of_result(size, outcome, outcome != 0, overflow),
    )
}

// The decimal sum with its flags.
fn add_decimal(size: Size, src: u16, dst: u16, flags: Flags) -> (u16, Flags)
    ensures value { result ≡ dadd_of size src dst flags }
    ensures fits { result.0 < modulus size }
{
    let (sum, carry) = bcd_add(size, src, dst, flags.c);
    (sum, Flags::of_result(size, sum, carry, flags.v))
}

#[inline(always)]
#[tactic(auto, using(crate::proofs::Fits::bits_fit))]
fn operate(op: Op2, size: Size, src: u16, dst: u16, flags: Flags) -> (u16, Flags)
    requires src_fits { src < modulus size }
    requires dst_fits { dst < modulus size }
    ensures value { result ≡ alu_of op size src dst flags }
    ensures fits { result.0 < modulus size }
{
    match op {
        Op2::Mov => (src, flags),
        Op2::Add => add(size, dst, src, false),
        Op2::Addc => add(size, dst, src, flags.c),
        Op2::Subc => add(size, dst, size.inverse(src), flags.c),
        Op2::Sub | Op2::Cmp => add(size, dst, size.inverse(src), true),
        Op2::Dadd => add_decimal(size, src, dst, flags),
        Op2::Bit | Op2::And => test(size, dst & src, false),
        Op2::Bic => (dst & size.inverse(src), flags),
        Op2::Bis => (dst | src, flags),
        Op2::Xor => test(
            size,
            dst ^ src,
            size.is_negative(src) && size.is_negative(dst),
        ),
    }
}

/// Result and flags of an operation of two operands (SLAU049). In a byte the operands are the low
/// bytes, and the result is at most 0x00FF. The result of CMP and BIT is what is not written.
#[inline(always)]
#[tactic(auto, unfolding(crate::specs::Op2::alu_result))]
pub fn alu(op: Op2, size: Size, src: u16, dst: u16, flags: Flags) -> (u16, Flags)
    ensures value { result ≡ alu_result op size src dst flags }
    ensures fits { result.0 < modulus size }
{
    match size {
        Size::Byte => operate(op, Size::Byte, src % 0x100, dst % 0x100, flags),
        Size::Word => operate(op, Size::Word, src, dst, flags),
    }
}
