ghost use Rattle.std.specs.Prelude.{◌≡◌, ◌≤◌, ◌+◌, ◌++◌, length};
ghost use Rattle.part_definitions.specs.{CpuRegister.plus, Instruction.jump_target};
ghost use Rattle.msp_asm.specs.ItemText.{word_text, size_suffix, indexed_text, constant_text, source_text, dest_text, instr_text, item_text};

use crate::item::Item;
use asm_text::{jump_name, one_name, op2_name, reg_name};
use line_buffer::LineBuffer;
use msp_decode::{Dest, Gen, Instr, Reg, Source};
use word_arith::Size;

fn size_suffix(size: Size) -> &'static [u8]
    ensures text { result.now ≡ size_suffix size }
    ensures len { length result.now ≤ 2 }
{
    match size {
        Size::Byte => b".b",
        Size::Word => b"",
    }
}

fn constant_text(constant: Gen) -> &'static [u8]
    ensures text { result.now ≡ constant_text constant }
    ensures len { length result.now ≤ 3 }
{
    match constant {
        Gen::Zero => b"#0",
        Gen::One => b"#1",
        Gen::Two => b"#2",
        Gen::Four => b"#4",
        Gen::Eight => b"#8",
        Gen::MinusOne => b"#-1",
    }
}

fn push_word_text(line: &mut LineBuffer, word: u16)
    requires { length line.old ≤ 40 }
    ensures text { line.new ≡ line.old ++ word_text word }
    ensures len { length line.new ≡ length line.old + 6 }
{
    line.push(b"0x");
    line.push_word(word);
}

// Where a jump at a place goes.
fn jump_target(place: u16, offset: i16) -> u16
    ensures { result ≡ jump_target (plus place 2) offset }
{
    let words = offset.cast_unsigned();
    place
        .wrapping_add(2)
        .wrapping_add(words)
        .wrapping_add(words)
}

fn push_indexed(line: &mut LineBuffer, register: Reg, index: u16)
    requires { length line.old ≤ 30 }
    ensures text { line.new ≡ line.old ++ indexed_text register index }
    ensures len { length line.new ≤ length line.old + 11 }
{
    match register {
        Reg::R2 => {
            line.push(b"&");
            push_word_text(line, index);
        }
        _ => {
            push_word_text(line, index);
            line.push(b"(");
            line.push(reg_name(register));
            line.push(b")");
        }
    }
}

fn push_source(line: &mut LineBuffer, source: Source)
    requires { length line.old ≤ 30 }
    ensures text { line.new ≡ line.old ++ source_text source }
    ensures len { length line.new ≤ length line.old + 11 }
{
    match source {
        Source::Reg(register) => line.push(reg_name(register)),
        Source::Indexed(register, index) => push_indexed(line, register, index),
        Source::Indirect(register) => {
            line.push(b"@");
            line.push(reg_name(register));
        }
        Source::IndirectInc(register) => {
            line.push(b"@");
            line.push(reg_name(register));
            line.push(b"+");
        }
        Source::Immediate(word) => {
            line.push(b"#");
            push_word_text(line, word);
        }
        Source::Constant(constant) => line.push(constant_text(constant)),
    }
}

fn push_dest(line: &mut LineBuffer, dest: Dest)
    requires { length line.old ≤ 30 }
    ensures text { line.new ≡ line.old ++ dest_text dest }
    ensures len { length line.new ≤ length line.old + 11 }
{
    match dest {
        Dest::Reg(register) => line.push(reg_name(register)),
        Dest::Indexed(register, index) => push_indexed(line, register, index),
    }
}

// An instruction at a place; a jump has its target.
fn push_instr(line: &mut LineBuffer, place: u16, instr: &Instr)
    requires { length line.old ≤ 6 }
    ensures text { line.new ≡ line.old ++ instr_text place instr.now }
    ensures len { length line.new ≤ length line.old + 30 }
{
    match *instr {
        Instr::Two(op, size, source, dest) => {
            line.push(op2_name(op));
            line.push(size_suffix(size));
            line.push(b" ");
            push_source(line, source);
            line.push(b",");
            push_dest(line, dest);
        }
        Instr::One(op, size, source) => {
            line.push(one_name(op));
            line.push(size_suffix(size));
            line.push(b" ");
            push_source(line, source);
        }
        Instr::Reti => line.push(b"reti"),
        Instr::Jump(condition, offset) => {
            line.push(jump_name(condition));
            line.push(b" ");
            push_word_text(line, jump_target(place, offset));
        }
    }
}

// An item at a place.
pub(crate) fn push_item(line: &mut LineBuffer, place: u16, item: &Item)
    requires { length line.old ≤ 6 }
    ensures text { line.new ≡ line.old ++ item_text place item.now }
    ensures len { length line.new ≤ length line.old + 30 }
{
    match *item {
        Item::Byte(byte) => {
            line.push(b".byte 0x");
            line.push_byte(byte);
        }
        Item::Word(word) => {
            line.push(b".word ");
            push_word_text(line, word);
        }
        Item::Instruction(instr) => push_instr(line, place, &instr),
    }
}
