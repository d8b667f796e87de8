ghost use Rattle.std.specs.Prelude.{◌≡◌, ◌<◌, ◌≤◌, ◌++◌, ◌∷◌, [], length, slice_index, codes};
ghost use Rattle.hex.specs.Hex.{upper_digits, encode_upper};
ghost use Rattle.hex_loader.specs.HexText.{data_record, data_line};

use crate::hex_record::sum_of;
use arrayvec::ArrayVec;

/// The most data bytes of a record that is written.
pub const MOST_DATA: usize = 16;

// The most bytes of a record that is written: count, address, type, data and check.
const MOST_BYTES: usize = 21;

/// The most characters of its line: a colon, two digits a byte, and LF.
pub const MOST_CHARACTERS: usize = 44;

/// The line of a record of type 00.
pub fn data_line(address: u16, bytes: &[u8]) -> ArrayVec<u8, MOST_CHARACTERS>
    requires { length bytes.now ≤ 16 }
    ensures { result.items ≡ data_line address bytes.now }
{
    let mut record = data_record(address, bytes);
    let check = 0u8.wrapping_sub(sum_of(&record));
    record.push(check);
    hex_line(&record)
}

// Count, address, type 00 and data.
fn data_record(address: u16, bytes: &[u8]) -> ArrayVec<u8, MOST_BYTES>
    requires { length bytes.now ≤ 16 }
    ensures { result.items ≡ data_record address bytes.now }
{
    let [high, low] = address.to_be_bytes();
    let mut record = ArrayVec::new();
    record.push(bytes.len() as u8);
    record.push(high);
    record.push(low);
    record.push(0);
    for byte in bytes {
        record.push(*byte);
    }
    record
}

// A colon, the bytes in upper-case digits, and LF.
fn hex_line(bytes: &[u8]) -> ArrayVec<u8, MOST_CHARACTERS>
    requires { length bytes.now ≤ 21 }
    ensures { result.items ≡ codes ":" ++ encode_upper bytes.now ++ 10 ∷ [] }
{
    let mut line = ArrayVec::new();
    line.push(b':');
    for byte in bytes {
        line.push(digit(byte / 16));
        line.push(digit(byte % 16));
    }
    line.push(b'\n');
    line
}

fn digit(value: u8) -> u8
    requires { value < 16 }
    ensures { result ≡ slice_index upper_digits value }
{
    b"0123456789ABCDEF"[usize::from(value)]
}
