ghost use Rattle.std.specs.Prelude.{◌≡◌, ◌<◌, ◌&&◌, ◌/◌, ◌%◌};
ghost use Rattle.debug_link.specs.Packet.{is_digit_of};

const LOWER: [u8; 16] = *b"0123456789abcdef";

const UPPER: [u8; 16] = *b"0123456789ABCDEF";

fn is_digit_of(number: u8, byte: u8) -> bool
    requires { number < 16 }
    ensures { result ≡ is_digit_of number byte }
{
    byte == LOWER[number as usize] || byte == UPPER[number as usize]
}

/// Whether these are the two hexadecimal digits of a number, in either case.
pub fn are_digits_of(number: u8, first: u8, second: u8) -> bool
    ensures { result ≡ (is_digit_of (number / 16) first && is_digit_of (number % 16) second) }
{
    is_digit_of(number / 16, first) && is_digit_of(number % 16, second)
}
