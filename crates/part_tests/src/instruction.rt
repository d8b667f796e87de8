use msp_decode::Cond::{Always, C, Eq, Ge, L, N, Nc, Ne};
use msp_decode::Reg::*;
use msp_decode::{
    Dest, EncodeFault, Gen, Instr, One, Source, complete, decode, encode, extensions,
};
use word_arith::Op2::{self, *};
use word_arith::Size::{self, Byte, Word};

fn two(op: Op2, size: Size, source: Source, dest: Dest) -> Instr {
    Instr::Two(op, size, source, dest)
}

fn one(op: One, size: Size, source: Source) -> Instr {
    Instr::One(op, size, source)
}

// A row is read as its instruction, which is written as the row.
fn row_agrees(words: &[u16], instr: Instr) -> bool {
    let word_at = |i: usize| words.get(i).copied().unwrap_or(0);
    let decodes = decode(word_at(0)).is_some_and(|head| {
        usize::from(extensions(&head)) + 1 == words.len()
            && complete(&head, word_at(1), word_at(2)) == instr
    });
    let encodes = encode(&instr).is_ok_and(|answer| {
        answer.len() == words.len() && (0..4).all(|i| answer.get(i) == words.get(i).copied())
    });
    decodes && encodes
}

#[test]
fn two_operand_words(rt: HostRuntime) {
    let rows: [(&[u16], Instr); 25] = [
        (&[0x4506], two(Mov, Word, Source::Reg(R5), Dest::Reg(R6))),
        (&[0x4001], two(Mov, Word, Source::Reg(R0), Dest::Reg(R1))),
        (&[0x4204], two(Mov, Word, Source::Reg(R2), Dest::Reg(R4))),
        (
            &[0x4303],
            two(Mov, Word, Source::Constant(Gen::Zero), Dest::Reg(R3)),
        ),
        (
            &[0x4130],
            two(Mov, Word, Source::IndirectInc(R1), Dest::Reg(R0)),
        ),
        (
            &[0x4024],
            two(Mov, Word, Source::Indirect(R0), Dest::Reg(R4)),
        ),
        (
            &[0x4037, 0x1234],
            two(Mov, Word, Source::Immediate(0x1234), Dest::Reg(R7)),
        ),
        (
            &[0x4576],
            two(Mov, Byte, Source::IndirectInc(R5), Dest::Reg(R6)),
        ),
        (
            &[0x43E6, 0x0005],
            two(Mov, Byte, Source::Constant(Gen::Two), Dest::Indexed(R6, 5)),
        ),
        (
            &[0x40B8, 0x0005, 0x0007],
            two(Mov, Word, Source::Immediate(5), Dest::Indexed(R8, 7)),
        ),
        (
            &[0x4493, 0x0006, 0x0008],
            two(Mov, Word, Source::Indexed(R4, 6), Dest::Indexed(R3, 8)),
        ),
        (&[0x5A4B], two(Add, Byte, Source::Reg(R10), Dest::Reg(R11))),
        (
            &[0x6819, 0x0004],
            two(Addc, Word, Source::Indexed(R8, 4), Dest::Reg(R9)),
        ),
        (
            &[0x7C2D],
            two(Subc, Word, Source::Indirect(R12), Dest::Reg(R13)),
        ),
        (
            &[0x8E3F],
            two(Sub, Word, Source::IndirectInc(R14), Dest::Reg(R15)),
        ),
        (
            &[0x9224],
            two(Cmp, Word, Source::Constant(Gen::Four), Dest::Reg(R4)),
        ),
        (
            &[0x9234],
            two(Cmp, Word, Source::Constant(Gen::Eight), Dest::Reg(R4)),
        ),
        (
            &[0xA314],
            two(Dadd, Word, Source::Constant(Gen::One), Dest::Reg(R4)),
        ),
        (
            &[0xB324],
            two(Bit, Word, Source::Constant(Gen::Two), Dest::Reg(R4)),
        ),
        (
            &[0xC334],
            two(Bic, Word, Source::Constant(Gen::MinusOne), Dest::Reg(R4)),
        ),
        (
            &[0xC232],
            two(Bic, Word, Source::Constant(Gen::Eight), Dest::Reg(R2)),
        ),
        (
            &[0xD232],
            two(Bis, Word, Source::Constant(Gen::Eight), Dest::Reg(R2)),
        ),
        (
            &[0xE292, 0x0200, 0x0202],
            two(
                Xor,
                Word,
                Source::Indexed(R2, 0x200),
                Dest::Indexed(R2, 0x202),
            ),
        ),
        (
            &[0xF090, 0x0010, 0x0020],
            two(
                And,
                Word,
                Source::Indexed(R0, 0x10),
                Dest::Indexed(R0, 0x20),
            ),
        ),
        (
            &[0xFFFF, 0x00FE],
            two(
                And,
                Byte,
                Source::IndirectInc(R15),
                Dest::Indexed(R15, 0xFE),
            ),
        ),
    ];
    for &(words, instr) in &rows {
        assert!(rt; row_agrees(words, instr), "{instr:?}");
    }
}

#[test]
fn one_operand_words_and_jumps(rt: HostRuntime) {
    let rows: [(&[u16], Instr); 28] = [
        (&[0x1005], one(One::Rrc, Word, Source::Reg(R5))),
        (&[0x1045], one(One::Rrc, Byte, Source::Reg(R5))),
        (&[0x1002], one(One::Rrc, Word, Source::Reg(R2))),
        (
            &[0x1012, 0x0200],
            one(One::Rrc, Word, Source::Indexed(R2, 0x200)),
        ),
        (&[0x1086], one(One::Swpb, Word, Source::Reg(R6))),
        (
            &[0x1117, 0x0002],
            one(One::Rra, Word, Source::Indexed(R7, 2)),
        ),
        (&[0x1168], one(One::Rra, Byte, Source::Indirect(R8))),
        (&[0x11B9], one(One::Sxt, Word, Source::IndirectInc(R9))),
        (&[0x120A], one(One::Push, Word, Source::Reg(R10))),
        (
            &[0x1230, 0x1234],
            one(One::Push, Word, Source::Immediate(0x1234)),
        ),
        (
            &[0x1232],
            one(One::Push, Word, Source::Constant(Gen::Eight)),
        ),
        (
            &[0x1233],
            one(One::Push, Word, Source::Constant(Gen::MinusOne)),
        ),
        (&[0x1253], one(One::Push, Byte, Source::Constant(Gen::One))),
        (&[0x128B], one(One::Call, Word, Source::Reg(R11))),
        (
            &[0x1292, 0x0200],
            one(One::Call, Word, Source::Indexed(R2, 0x200)),
        ),
        (&[0x12A2], one(One::Call, Word, Source::Constant(Gen::Four))),
        (
            &[0x12B0, 0xF000],
            one(One::Call, Word, Source::Immediate(0xF000)),
        ),
        (&[0x1300], Instr::Reti),
        (&[0x2000], Instr::Jump(Ne, 0)),
        (&[0x23FF], Instr::Jump(Ne, -1)),
        (&[0x2401], Instr::Jump(Eq, 1)),
        (&[0x29FF], Instr::Jump(Nc, 511)),
        (&[0x2E00], Instr::Jump(C, -512)),
        (&[0x3002], Instr::Jump(N, 2)),
        (&[0x3403], Instr::Jump(Ge, 3)),
        (&[0x3804], Instr::Jump(L, 4)),
        (&[0x3FFE], Instr::Jump(Always, -2)),
        (&[0x3FFF], Instr::Jump(Always, -1)),
    ];
    for &(words, instr) in &rows {
        assert!(rt; row_agrees(words, instr), "{instr:?}");
    }
}

#[test]
fn illegal_words(rt: HostRuntime) {
    let words = [
        0x0000, 0x0FFF, 0x1301, 0x1380, 0x13FF, 0x1400, 0x1FFF, // no instruction
        0x10C5, 0x11C5, 0x12C5, // bytes of SWPB, SXT and CALL
        0x1030, 0x1130, 0x10A2, 0x11B2, 0x1103, 0x1053, // results to a value
    ];
    for &word in &words {
        assert_eq!(rt; decode(word), None, "{word}");
    }
}

#[test]
fn faults_in_their_order(rt: HostRuntime) {
    let rows = [
        (
            one(One::Swpb, Byte, Source::Immediate(1)),
            EncodeFault::NoByteForm,
        ),
        (
            one(One::Call, Byte, Source::Reg(R3)),
            EncodeFault::NoByteForm,
        ),
        (
            one(One::Rra, Byte, Source::Constant(Gen::Zero)),
            EncodeFault::NotWritable,
        ),
        (
            one(One::Rrc, Word, Source::IndirectInc(R0)),
            EncodeFault::NoSuchForm,
        ),
        (
            two(Mov, Word, Source::Indexed(R3, 0), Dest::Reg(R4)),
            EncodeFault::NoSuchForm,
        ),
        (Instr::Jump(Always, 512), EncodeFault::OffsetRange),
        (Instr::Jump(Always, -513), EncodeFault::OffsetRange),
    ];
    for &(instr, fault) in &rows {
        assert!(rt;
            encode(&instr).is_err_and(|answer| answer == fault),
            "{instr:?}"
        );
    }
}
