ghost use Rattle.std.specs.{Prelude.{◌≡◌, ◌≤◌}, Char.{digit_value, is_ascii_digit, is_ascii_hexdigit}, List.list_all, Str.Parse.digits_value};
ghost use Rattle.asm_text.specs.Word.{small_number, numeral, number_of};

/// The number of a word: a decimal, or `0x` and hexadecimal digits of either case; at most 65535.
pub fn number_of(word: &[u8]) -> Option<u16>
    ensures { result ≡ number_of word.now }
{
    match word {
        [b'0', b'x', digits @ ..] => hexadecimal(digits),
        _ => decimal(word),
    }
}

fn hexadecimal(digits: &[u8]) -> Option<u16>
    ensures { result ≡ numeral 16 is_ascii_hexdigit digits.now }
{
    if !digits.is_empty() && are_hexadecimal(digits) {
        value_of(16, digits)
    } else {
        None
    }
}

fn are_hexadecimal(digits: &[u8]) -> bool
    ensures { result ≡ list_all is_ascii_hexdigit digits.now }
{
    digits.iter().all(u8::is_ascii_hexdigit)
}

fn decimal(digits: &[u8]) -> Option<u16>
    ensures { result ≡ numeral 10 is_ascii_digit digits.now }
{
    if !digits.is_empty() && are_decimal(digits) {
        value_of(10, digits)
    } else {
        None
    }
}

fn are_decimal(digits: &[u8]) -> bool
    ensures { result ≡ list_all is_ascii_digit digits.now }
{
    digits.iter().all(u8::is_ascii_digit)
}

// The value of digits, where it is at most 65535.
fn value_of(radix: u32, digits: &[u8]) -> Option<u16>
    requires least { 1 ≤ radix }
    requires most { radix ≤ 16 }
    ensures { result ≡ small_number (digits_value radix digits.now) }
{
    let mut value: u32 = 0;
    for digit in digits {
        value = value * radix + digit_value(*digit);
        if value > 65_535 {
            return None;
        }
    }
    Some(value as u16)
}

// The value of a digit or a letter as a digit, and 36 for other characters.
fn digit_value(digit: u8) -> u32
    ensures value { result ≡ digit_value digit }
    ensures most { result ≤ 36 }
{
    match digit {
        b'0'..=b'9' => u32::from(digit - b'0'),
        b'A'..=b'Z' => u32::from(digit - b'A') + 10,
        b'a'..=b'z' => u32::from(digit - b'a') + 10,
        _ => 36,
    }
}
