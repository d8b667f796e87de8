ghost use Rattle.std.specs.Prelude.{◌≡◌, ◌<◌};
ghost use Rattle.word_arith.specs.{Number.modulus, Sum.sum_of};

use crate::flags::Flags;
use crate::size::Size;

// The sum of two operands and a carry, with its flags.
#[inline(always)]
pub(crate) fn add(size: Size, left: u16, right: u16, carry: bool) -> (u16, Flags)
    requires left_fits { left < modulus size }
    requires right_fits { right < modulus size }
    ensures value { result ≡ sum_of size left right carry }
    ensures fits { result.0 < modulus size }
{
    let whole = u32::from(left) + u32::from(right) + u32::from(carry);
    let sum = size.low_part((whole % 0x1_0000) as u16);
    let carry_out = match size {
        Size::Byte => whole >= 0x100,
        Size::Word => whole >= 0x1_0000,
    };
    let sign = size.is_negative(left);
    let overflow = sign == size.is_negative(right) && sign != size.is_negative(sum);
    (sum, Flags::of_result(size, sum, carry_out, overflow))
}
