ghost use Rattle.std.specs.{Prelude.{◌≡◌, ◌<◌, ◌≤◌, ℕ, length, slice_index, true, false}, Char.{digit_value, is_digit}, Str.Parse.digits_value};
ghost use Rattle.debug_session.specs.Number.{are_hex_digits, behind_comma, before_comma, is_comma, is_hex_word, number_of, two_numbers};

// The most digits of a number.
const MOST_DIGITS: usize = 8;

/// The number of one to eight hexadecimal digits of either case.
pub fn number_of(word: &[u8]) -> Option<u32>
    ensures { result ≡ number_of word.now }
{
    if !is_hex_word(word) {
        return None;
    }
    if word.len() > MOST_DIGITS {
        return None;
    }
    Some(value_of(word))
}

/// Two numbers with a comma between them.
pub fn two_numbers(text: &[u8]) -> Option<(u32, u32)>
    ensures { result ≡ two_numbers text.now }
{
    let (first, second) = cut_at_comma(text);
    let first = number_of(first)?;
    let second = number_of(second)?;
    Some((first, second))
}

/// What stands before the first comma and behind it, which is nothing where there is none.
pub fn cut_at_comma(text: &[u8]) -> (&[u8], &[u8])
    ensures before { result.0.now ≡ before_comma text.now }
    ensures behind { result.1.now ≡ behind_comma text.now }
{
    let end = comma_at(text);
    if end == text.len() {
        return (text, &[]);
    }
    (&text[..end], &text[end + 1..])
}

// Where the first comma stands, or the length where there is none.
fn comma_at(text: &[u8]) -> usize
    ensures within { result ≤ length text.now }
    ensures before { (k : ℕ) → k < result → is_comma (slice_index text.now k) ≡ false }
    ensures end { result < length text.now → is_comma (slice_index text.now result) ≡ true }
{
    text.iter()
        .position(|byte| is_comma(*byte))
        .unwrap_or(text.len())
}

fn is_comma(byte: u8) -> bool
    ensures { result ≡ is_comma byte }
{
    byte == b','
}

fn is_hex_word(word: &[u8]) -> bool
    ensures { result ≡ is_hex_word word.now }
{
    !word.is_empty() && are_hex_digits(word)
}

fn are_hex_digits(word: &[u8]) -> bool
    ensures { result ≡ are_hex_digits word.now }
{
    word.iter().all(|byte| is_hex_digit(*byte))
}

fn is_hex_digit(byte: u8) -> bool
    ensures { result ≡ is_digit byte 16 }
{
    char::from(byte).is_digit(16)
}

fn digit_value(digit: u8) -> u32
    requires { is_digit digit 16 ≡ true }
    ensures value { result ≡ digit_value digit }
    ensures small { result ≤ 15 }
{
    match char::from(digit).to_digit(16) {
        Some(value) => value,
        None => unreachable!(),
    }
}

fn value_of(digits: &[u8]) -> u32
    requires digits { is_hex_word digits.now ≡ true }
    requires short { length digits.now ≤ 8 }
    ensures { result ≡ digits_value 16 digits.now }
{
    let mut value = 0;
    for digit in digits {
        value = value * 16 + digit_value(*digit);
    }
    value
}
