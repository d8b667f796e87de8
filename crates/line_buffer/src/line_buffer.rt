ghost use Rattle.std.specs.Prelude.{◌≡◌, ◌+◌, ◌*◌, ◌≤◌, ◌++◌, ◌∷◌, [], ℕ, List, length, decimal};
ghost use Rattle.hex.specs.Hex.{encode_lower};
ghost use Rattle.printed_lines.specs.Line.{byte_digits, word_digits, flag_digit};
ghost use Rattle.line_buffer.specs.declared.line_buffer.TheConstants.{ROOM};

use crate::printed_flag::flag_digit;
use arrayvec::ArrayVec;
use itoa::Buffer;
use std::marker::Model;

/// How many bytes a line has room for.
pub const ROOM: usize = 256;

/// A line that is being built, seen as its bytes.
#[derive(Drop)]
pub struct LineBuffer {
    bytes: ArrayVec<u8, ROOM>,
}

impl Model for LineBuffer {
    ghost Value = { List ℕ };

    ghost view = { λ line. line.bytes.items };
}

impl LineBuffer {
    pub fn new() -> LineBuffer
        ensures { result ≡ [] }
    {
        LineBuffer {
            bytes: ArrayVec::new(),
        }
    }

    pub fn as_slice(&self) -> &[u8]
        ensures { result.now ≡ self.now }
    {
        self.bytes.as_slice()
    }

    pub fn push(&mut self, text: &[u8])
        requires { length self.old + length text.now ≤ ROOM }
        ensures text { self.new ≡ self.old ++ text.now }
        ensures len { length self.new ≡ length self.old + length text.now }
    {
        match self.bytes.try_extend_from_slice(text) {
            Ok(()) => {}
            Err(_) => unreachable!(),
        }
    }

    pub fn push_decimal(&mut self, number: u64)
        requires { length self.old + 20 ≤ ROOM }
        ensures text { self.new ≡ self.old ++ decimal number }
        ensures len { length self.new ≤ length self.old + 20 }
    {
        let mut digits = Buffer::new();
        self.push(digits.format(number).as_bytes());
    }

    /// Two digits, lower case.
    pub fn push_byte(&mut self, byte: u8)
        requires { length self.old + 2 ≤ ROOM }
        ensures text { self.new ≡ self.old ++ byte_digits byte }
        ensures len { length self.new ≡ length self.old + 2 }
    {
        let mut digits = [0; 2];
        match hex::encode_to_slice(&[byte], &mut digits) {
            Ok(()) => self.push(&digits),
            Err(_) => unreachable!(),
        }
    }

    /// Two digits a byte, lower case, of at most 32 bytes.
    pub fn push_hex(&mut self, bytes: &[u8])
        requires few { length bytes.now ≤ 32 }
        requires fits { length self.old + 64 ≤ ROOM }
        ensures text { self.new ≡ self.old ++ encode_lower bytes.now }
        ensures len { length self.new ≡ length self.old + 2 * length bytes.now }
    {
        let mut room = [0; 64];
        let digits = &mut room[..2 * bytes.len()];
        match hex::encode_to_slice(bytes, digits) {
            Ok(()) => self.push(digits),
            Err(_) => unreachable!(),
        }
    }

    /// Four digits, lower case.
    pub fn push_word(&mut self, word: u16)
        requires { length self.old + 4 ≤ ROOM }
        ensures text { self.new ≡ self.old ++ word_digits word }
        ensures len { length self.new ≡ length self.old + 4 }
    {
        let mut digits = [0; 4];
        match hex::encode_to_slice(&word.to_be_bytes(), &mut digits) {
            Ok(()) => self.push(&digits),
            Err(_) => unreachable!(),
        }
    }

    /// A space and a word.
    pub fn add_text(&mut self, text: &[u8])
        requires { length self.old + length text.now + 1 ≤ ROOM }
        ensures text { self.new ≡ self.old ++ 32 ∷ text.now }
        ensures len { length self.new ≡ length self.old + length text.now + 1 }
    {
        self.push(b" ");
        self.push(text);
    }

    pub fn add_decimal(&mut self, number: u64)
        requires { length self.old + 21 ≤ ROOM }
        ensures text { self.new ≡ self.old ++ 32 ∷ decimal number }
        ensures len { length self.new ≤ length self.old + 21 }
    {
        self.push(b" ");
        self.push_decimal(number);
    }

    /// A space and four digits, lower case.
    pub fn add_word(&mut self, word: u16)
        requires { length self.old + 5 ≤ ROOM }
        ensures text { self.new ≡ self.old ++ 32 ∷ word_digits word }
        ensures len { length self.new ≡ length self.old + 5 }
    {
        let mut text = [b' '; 5];
        match hex::encode_to_slice(&word.to_be_bytes(), &mut text[1..]) {
            Ok(()) => self.push(&text),
            Err(_) => unreachable!(),
        }
    }

    pub fn add_byte(&mut self, byte: u8)
        requires { length self.old + 3 ≤ ROOM }
        ensures text { self.new ≡ self.old ++ 32 ∷ byte_digits byte }
        ensures len { length self.new ≡ length self.old + 3 }
    {
        self.push(b" ");
        self.push_byte(byte);
    }

    /// A space and two digits a byte, lower case, of at most 32 bytes.
    pub fn add_digits(&mut self, bytes: &[u8])
        requires few { length bytes.now ≤ 32 }
        requires fits { length self.old + 65 ≤ ROOM }
        ensures text { self.new ≡ self.old ++ 32 ∷ encode_lower bytes.now }
        ensures len { length self.new ≡ length self.old + 2 * length bytes.now + 1 }
    {
        self.push(b" ");
        self.push_hex(bytes);
    }

    pub fn add_flag(&mut self, flag: bool)
        requires { length self.old + 2 ≤ ROOM }
        ensures text { self.new ≡ self.old ++ 32 ∷ flag_digit flag }
        ensures len { length self.new ≡ length self.old + 2 }
    {
        self.push(b" ");
        self.push(flag_digit(flag));
    }
}
