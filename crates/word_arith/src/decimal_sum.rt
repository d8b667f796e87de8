ghost use Rattle.std.specs.Prelude.{◌≡◌, ◌<◌, ◌^◌};
ghost use Rattle.word_arith.specs.{Decimal.{decimal_places, decimal_sum}, Number.modulus};

use crate::size::Size;

// One decimal place: the digit and the carry of two nibbles and a carry.
fn add_digits(left: u16, right: u16, carry: bool) -> (u16, bool)
    requires left_fits { left < 16 }
    requires right_fits { right < 16 }
    ensures value { result ≡ decimal_places 1 left right carry }
    ensures fits { result.0 < 16 }
{
    let sum = left + right + u16::from(carry);
    if sum < 10 {
        (sum, false)
    } else {
        ((sum + 6) % 16, true)
    }
}

// Two decimal places.
fn add_bytes(left: u16, right: u16, carry: bool) -> (u16, bool)
    requires left_fits { left < 2 ^ 8 }
    requires right_fits { right < 2 ^ 8 }
    ensures value { result ≡ decimal_places 2 left right carry }
    ensures fits { result.0 < 2 ^ 8 }
{
    let (low, carry) = add_digits(left % 16, right % 16, carry);
    let (high, carry) = add_digits(left / 16, right / 16, carry);
    (high * 16 + low, carry)
}

/// The decimal sum of two operands and a carry, and its carry. In a byte the low bytes are added.
///
/// The guide adds decimal digits. A nibble that is no digit is added in the same way: a sum of 10
/// or more gives its remainder by 16 after 6 was added, and a carry.
pub fn bcd_add(size: Size, src: u16, dst: u16, carry: bool) -> (u16, bool)
    ensures value { result ≡ decimal_sum size src dst carry }
    ensures fits { result.0 < modulus size }
{
    let (low, half_carry) = add_bytes(src % 0x100, dst % 0x100, carry);
    match size {
        Size::Byte => (low, half_carry),
        Size::Word => {
            let (high, carry) = add_bytes(src / 0x100, dst / 0x100, half_carry);
            (high * 0x100 + low, carry)
        }
    }
}
