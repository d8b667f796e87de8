ghost use Rattle.std.specs.Prelude.{◌≡◌, ◌*◌, ◌/◌, ◌%◌, length, sum};
ghost use Rattle.text_scan.specs.Hexadecimal.{hex_bytes_of};
ghost use Rattle.hex_loader.specs.HexRecord.{record_of_type, record_of_bytes, record_or_fault, record_in, GivesRecord};

use text_scan::{FaultKind, hex_bytes};

/// The most bytes that a record has: count, address, type, 255 data bytes and check.
pub const MOST_BYTES: usize = 260;

/// A record of Intel HEX.
#[derive(Clone, Copy, Debug)]
pub enum HexRecord<'a> {
    /// Type 00: bytes from base + address upwards.
    Data(u16, &'a [u8]),
    /// Type 01: the end.
    End,
    /// Types 02 and 04: the base of what follows.
    Base(u32),
    /// Types 03 and 05: a start address.
    Start,
}

/// The record that these bytes are: count, address, type, data and check.
pub fn record_of_bytes(bytes: &[u8]) -> Result<HexRecord<'_>, FaultKind>
    ensures { GivesRecord result (record_of_bytes bytes.now) }
{
    let [count, high, low, kind, data @ .., _] = bytes else {
        return Err(FaultKind::Count);
    };
    if data.len() != usize::from(*count) {
        return Err(FaultKind::Count);
    }
    if sum_of(bytes) != 0 {
        return Err(FaultKind::Check);
    }
    record_of_type(*kind, u16::from_be_bytes([*high, *low]), data)
}

/// The sum of the bytes modulo 256.
pub fn sum_of(bytes: &[u8]) -> u8
    ensures { result ≡ sum bytes.now % 256 }
{
    let mut total: u8 = 0;
    for byte in bytes {
        total = total.wrapping_add(*byte);
    }
    total
}

// The record of a type, with the number of data bytes that the type wants.
fn record_of_type(kind: u8, address: u16, bytes: &[u8]) -> Result<HexRecord<'_>, FaultKind>
    ensures { GivesRecord result (record_of_type kind address bytes.now) }
{
    match (kind, bytes) {
        (0, _) => Ok(HexRecord::Data(address, bytes)),
        (1, []) => Ok(HexRecord::End),
        (2, [high, low]) => Ok(HexRecord::Base(u32::from(u16::from_be_bytes([*high, *low])) * 16)),
        (3 | 5, [_, _, _, _]) => Ok(HexRecord::Start),
        (4, [high, low]) => Ok(HexRecord::Base(
            u32::from(u16::from_be_bytes([*high, *low])) * 0x1_0000,
        )),
        (1..=5, _) => Err(FaultKind::Count),
        _ => Err(FaultKind::RecordType),
    }
}

/// The record of the digits of a line.
pub fn record_of_digits<'a>(
    digits: &[u8],
    room: &'a mut [u8; MOST_BYTES],
) -> Result<HexRecord<'a>, FaultKind>
    ensures { GivesRecord result
        (record_or_fault (hex_bytes_of (length digits.now / 2) digits.now)) }
{
    let bytes = &mut room[..(digits.len() / 2).min(MOST_BYTES)];
    hex_bytes(digits, bytes)?;
    record_of_bytes(bytes)
}

/// The record of a line.
pub fn record_of_line<'a>(
    line: &[u8],
    room: &'a mut [u8; MOST_BYTES],
) -> Result<HexRecord<'a>, FaultKind>
    ensures { GivesRecord result (record_in line.now) }
{
    let [b':', digits @ ..] = line else {
        return Err(FaultKind::NoColon);
    };
    record_of_digits(digits, room)
}
