//! The memory map: the regions and the places in them that the device names.

use crate::region::Region;

/// The registers of the peripherals.
pub const PERIPHERALS: Region = Region {
    first: 0x0000,
    last: 0x01FF,
};

/// The registers of the pins.
pub const PINS: Region = Region {
    first: 0x0020,
    last: 0x0021,
};

/// The registers of the serial port.
pub const SERIAL: Region = Region {
    first: 0x0070,
    last: 0x0077,
};

/// The registers of the timer.
pub const TIMER: Region = Region {
    first: 0x0160,
    last: 0x0165,
};

/// The registers of the DMA engine.
pub const DMA: Region = Region {
    first: 0x01E0,
    last: 0x01E7,
};

/// RAM, of which the MAC and the metadata are parts.
pub const RAM: Region = Region {
    first: 0x0200,
    last: 0x21FF,
};

/// Where the MAC is written, part of RAM (VRASED's MR).
pub const MR: Region = Region {
    first: 0x0200,
    last: 0x021F,
};

/// Challenge, bounds, the words of the flags, counter and token, part of RAM (APEX's METADATA).
pub const META: Region = Region {
    first: 0x0240,
    last: 0x028F,
};

/// The word of the metadata with the first address of the executable region (APEX's ERmin). The
/// challenge stands before it.
pub const ER_MIN: u16 = META.first + 32;

/// The word with the last (ERmax).
pub const ER_MAX: u16 = ER_MIN + 2;

/// The word with the first address of the output region (ORmin).
pub const OR_MIN: u16 = ER_MAX + 2;

/// The word with the last (ORmax).
pub const OR_MAX: u16 = OR_MIN + 2;

/// The word of the metadata that shows the EXEC flag.
pub const EXEC_WORD: u16 = OR_MAX + 2;

/// The word of the metadata that shows the second flag.
pub const AUX_WORD: u16 = EXEC_WORD + 2;

/// The counter of the request, four bytes of the metadata.
pub const COUNTER: u16 = AUX_WORD + 2;

/// The metadata of version 1, which end with the EXEC word.
pub const META_ONE: Region = Region {
    first: META.first,
    last: EXEC_WORD + 1,
};

/// The exclusive stack of the attestation (VRASED's XS).
pub const XS: Region = Region {
    first: 0x4000,
    last: 0x43FF,
};

/// Where a call keeps the derived key.
pub const DERIVED_KEY: u16 = XS.first;

/// Where a call keeps the inner digest.
pub const INNER_DIGEST: u16 = DERIVED_KEY + 32;

/// Where the counter of the last request that was attested is kept, four bytes.
pub const KEPT_COUNTER: u16 = XS.first + 0x60;

/// The device key, 64 bytes that take no write (VRASED's KR).
pub const KR: Region = Region {
    first: 0x6A00,
    last: 0x6A3F,
};

/// The attestation ROM (VRASED's CR).
pub const CR: Region = Region {
    first: 0xA000,
    last: 0xBFFF,
};

/// Where a call of the ROM begins (VRASED's CRmin).
pub const ROM_ENTRY: u16 = CR.first;

/// Where a call of the ROM goes on.
pub const ROM_BODY: u16 = ROM_ENTRY + 2;

/// Where a call of the ROM ends (VRASED's CRmax).
pub const ROM_EXIT: u16 = CR.last - 1;

/// The program, without the vectors above it.
pub const PROGRAM: Region = Region {
    first: 0xC000,
    last: 0xFFDF,
};

/// The vectors.
pub const VECTORS: Region = Region {
    first: 0xFFE0,
    last: 0xFFFF,
};

/// Where a boot finds the first address of the program.
pub const RESET_VECTOR: u16 = VECTORS.last - 1;

/// Where the serial port's interrupt finds the first address of its handler.
pub const SERIAL_VECTOR: u16 = 0xFFF4;

/// Where the timer's interrupt finds the first address of its handler.
pub const TIMER_VECTOR: u16 = 0xFFF2;
