ghost use Rattle.std.specs.Prelude.{◌≡◌};
ghost use Rattle.msp_asm.specs.Value.{address_of, word_of, byte_of, byte_immediate_of};

use text_scan::FaultKind;

/// The value of an expression that is an address.
pub fn address_of(value: i128) -> Result<u16, FaultKind>
    ensures { result ≡ address_of value }
{
    match value {
        0..=0xFFFF => Ok(value as u16),
        _ => Err(FaultKind::Range),
    }
}

/// The value of an expression that is a word, modulo 65,536.
pub fn word_of(value: i128) -> Result<u16, FaultKind>
    ensures { result ≡ word_of value }
{
    match value {
        0..=0xFFFF => Ok(value as u16),
        -0x8000..=-1 => Ok((value + 0x1_0000) as u16),
        _ => Err(FaultKind::Range),
    }
}

/// The value of an expression that is a byte, modulo 256.
pub fn byte_of(value: i128) -> Result<u8, FaultKind>
    ensures { result ≡ byte_of value }
{
    match value {
        0..=0xFF => Ok(value as u8),
        -0x80..=-1 => Ok((value + 0x100) as u8),
        _ => Err(FaultKind::Range),
    }
}

/// The word of an immediate in a byte instruction.
pub fn byte_immediate_of(value: i128) -> Result<u16, FaultKind>
    ensures { result ≡ byte_immediate_of value }
{
    match value {
        0..=0xFF => Ok(value as u16),
        -0x80..=-1 => Ok((value + 0x1_0000) as u16),
        _ => Err(FaultKind::Range),
    }
}
