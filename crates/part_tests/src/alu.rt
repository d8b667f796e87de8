use word_arith::Op1::{self, Rra, Rrc, Swpb, Sxt};
use word_arith::Op2::{self, Add, Addc, And, Bic, Bis, Bit, Cmp, Dadd, Mov, Sub, Subc, Xor};
use word_arith::Size::{self, Byte, Word};
use word_arith::{Flags, alu, bcd_add, shift};

// The flags from their bits: carry, zero, negative, overflow.
fn flags(c: u8, z: u8, n: u8, v: u8) -> Flags {
    Flags {
        c: c == 1,
        z: z == 1,
        n: n == 1,
        v: v == 1,
    }
}

#[test]
fn two_operands_from_clear_flags(rt: HostRuntime) {
    // source, destination, result, flags after
    let rows: [(Op2, Size, u16, u16, u16, Flags); 19] = [
        (Mov, Word, 0x8000, 0x0001, 0x8000, flags(0, 0, 0, 0)),
        (Add, Word, 0x0001, 0x7FFF, 0x8000, flags(0, 0, 1, 1)),
        (Add, Byte, 0x0001, 0x00FF, 0x0000, flags(1, 1, 0, 0)),
        (Addc, Word, 0x0001, 0x0001, 0x0002, flags(0, 0, 0, 0)),
        (Subc, Word, 0x0001, 0x0003, 0x0001, flags(1, 0, 0, 0)),
        (Sub, Word, 0x0001, 0x0000, 0xFFFF, flags(0, 0, 1, 0)),
        (Sub, Word, 0x0001, 0x8000, 0x7FFF, flags(1, 0, 0, 1)),
        (Cmp, Byte, 0x0080, 0x0080, 0x0000, flags(1, 1, 0, 0)),
        (Dadd, Word, 0x0001, 0x9999, 0x0000, flags(1, 1, 0, 0)),
        (Dadd, Word, 0x0000, 0x000A, 0x0010, flags(0, 0, 0, 0)),
        (Dadd, Word, 0x000F, 0x000F, 0x0014, flags(0, 0, 0, 0)),
        (Bit, Word, 0x8001, 0x8000, 0x8000, flags(1, 0, 1, 0)),
        (Bit, Byte, 0x0001, 0x00FE, 0x0000, flags(0, 1, 0, 0)),
        (Bic, Word, 0x00F0, 0x0FFF, 0x0F0F, flags(0, 0, 0, 0)),
        (Bis, Word, 0x8000, 0x0001, 0x8001, flags(0, 0, 0, 0)),
        (Xor, Word, 0xFFFF, 0x8000, 0x7FFF, flags(1, 0, 0, 1)),
        (Xor, Word, 0x8000, 0x0001, 0x8001, flags(1, 0, 1, 0)),
        (And, Word, 0xF0F0, 0xFF00, 0xF000, flags(1, 0, 1, 0)),
        (And, Byte, 0x000F, 0x00F0, 0x0000, flags(0, 1, 0, 0)),
    ];
    for &(op, size, src, dst, outcome, after) in &rows {
        let answer = alu(op, size, src, dst, flags(0, 0, 0, 0));
        assert_eq!(rt; answer, (outcome, after), "{op:?} {src} {dst}");
    }
}

#[test]
fn two_operands_from_set_flags(rt: HostRuntime) {
    // source, destination, result, flags after
    let rows: [(Op2, Size, u16, u16, u16, Flags); 15] = [
        (Mov, Word, 0x0001, 0x8000, 0x0001, flags(1, 1, 1, 1)),
        (Add, Word, 0x0001, 0x0001, 0x0002, flags(0, 0, 0, 0)),
        (Addc, Word, 0x0001, 0x0001, 0x0003, flags(0, 0, 0, 0)),
        (Addc, Word, 0xFFFF, 0x0000, 0x0000, flags(1, 1, 0, 0)),
        (Subc, Word, 0x0001, 0x0003, 0x0002, flags(1, 0, 0, 0)),
        (Sub, Word, 0x0003, 0x0001, 0xFFFE, flags(0, 0, 1, 0)),
        (Cmp, Word, 0x0001, 0x0002, 0x0001, flags(1, 0, 0, 0)),
        (Dadd, Word, 0x0000, 0x0000, 0x0001, flags(0, 0, 0, 1)),
        (Dadd, Byte, 0x0019, 0x0085, 0x0005, flags(1, 0, 0, 1)),
        (Bit, Word, 0x0001, 0x0001, 0x0001, flags(1, 0, 0, 0)),
        (Bic, Byte, 0x000F, 0x00FF, 0x00F0, flags(1, 1, 1, 1)),
        (Bis, Word, 0x0001, 0x0002, 0x0003, flags(1, 1, 1, 1)),
        (Xor, Byte, 0x000F, 0x00FF, 0x00F0, flags(1, 0, 1, 0)),
        (Xor, Word, 0xAAAA, 0xAAAA, 0x0000, flags(0, 1, 0, 1)),
        (And, Word, 0x0001, 0x0002, 0x0000, flags(0, 1, 0, 0)),
    ];
    for &(op, size, src, dst, outcome, after) in &rows {
        let answer = alu(op, size, src, dst, flags(1, 1, 1, 1));
        assert_eq!(rt; answer, (outcome, after), "{op:?} {src} {dst}");
    }
}

#[test]
fn one_operand(rt: HostRuntime) {
    let clear = flags(0, 0, 0, 0);
    let all = flags(1, 1, 1, 1);
    // operand, flags before, result, flags after
    let rows: [(Op1, Size, u16, Flags, u16, Flags); 11] = [
        (Rrc, Word, 0x0001, clear, 0x0000, flags(1, 1, 0, 0)),
        (Rrc, Word, 0x0002, all, 0x8001, flags(0, 0, 1, 0)),
        (Rrc, Byte, 0x0001, all, 0x0080, flags(1, 0, 1, 0)),
        (Rra, Word, 0x8001, clear, 0xC000, flags(1, 0, 1, 0)),
        (Rra, Byte, 0x0081, clear, 0x00C0, flags(1, 0, 1, 0)),
        (Rra, Word, 0x0002, all, 0x0001, flags(0, 0, 0, 0)),
        (Swpb, Word, 0x1234, clear, 0x3412, clear),
        (Swpb, Word, 0x00FF, all, 0xFF00, all),
        (Sxt, Word, 0x1280, clear, 0xFF80, flags(1, 0, 1, 0)),
        (Sxt, Word, 0xFF00, clear, 0x0000, flags(0, 1, 0, 0)),
        (Sxt, Word, 0x007F, all, 0x007F, flags(1, 0, 0, 0)),
    ];
    for &(op, size, dst, before, outcome, after) in &rows {
        assert_eq!(rt;
            shift(op, size, dst, before),
            (outcome, after),
            "{op:?} {dst}"
        );
    }
    assert_eq!(rt; bcd_add(Byte, 0x0019, 0x0085, true), (0x0005, true));
}
