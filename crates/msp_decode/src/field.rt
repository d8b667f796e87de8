ghost use Rattle.std.specs.Prelude.{◌≡◌, ◌<◌, ◌≤◌, IsTrue};
ghost use Rattle.msp_decode.specs.{Table.{op2_number, size_number, offset_number}, Field.{op2_of, size_of_bit, offset_of}, Spelling.has_range};

use crate::value_numbered::value_numbered;
use word_arith::{Op2, Size};

// The opcode of MOV.
const FIRST_OPCODE: u16 = 4;

// The opcode of an operation of two operands.
pub(crate) fn op2_number(op: Op2) -> u16
    ensures value { result ≡ op2_number op }
    ensures least { 4 ≤ result }
    ensures fits { result < 16 }
{
    FIRST_OPCODE + op as u16
}

// The operation of two operands of an opcode.
pub(crate) fn op2_from_number(number: u16) -> Op2
    requires least { 4 ≤ number }
    requires fits { number < 16 }
    ensures { result ≡ op2_of number }
{
    value_numbered!(number - FIRST_OPCODE;
        Op2: Mov, Add, Addc, Subc, Sub, Cmp, Dadd, Bit, Bic, Bis, Xor, And)
}

// The B/W bit of a size.
pub(crate) fn size_number(size: Size) -> u16
    ensures value { result ≡ size_number size }
    ensures fits { result < 2 }
{
    match size {
        Size::Word => 0,
        Size::Byte => 1,
    }
}

// The size of a B/W bit.
pub(crate) fn size_from_number(bit: u16) -> Size
    requires { bit < 2 }
    ensures { result ≡ size_of_bit bit }
{
    match bit {
        0 => Size::Word,
        _ => Size::Byte,
    }
}

// Whether a jump's offset fits ten bits.
pub(crate) fn has_range(offset: i16) -> bool
    ensures { result ≡ has_range offset }
{
    (-512..=511).contains(&offset)
}

// A jump's offset in ten bits, two's complement.
pub(crate) fn offset_number(offset: i16) -> u16
    requires { IsTrue (has_range offset) }
    ensures value { result ≡ offset_number offset }
    ensures fits { result < 0x400 }
{
    if offset < 0 {
        (offset + 0x400) as u16
    } else {
        offset as u16
    }
}

// The offset of ten bits.
pub(crate) fn offset_from_number(number: u16) -> i16
    requires { number < 0x400 }
    ensures { result ≡ offset_of number }
{
    if number < 0x200 {
        number as i16
    } else {
        number as i16 - 0x400
    }
}
