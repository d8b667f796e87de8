ghost use Rattle.std.specs.Prelude.{◌≡◌};
ghost use Rattle.part_definitions.specs.{CpuRegister.{pc_of, sp_of, sr_of, word_in, operand_in, word_for, with_register, with_pc, with_sp, with_sr, after_word, after_push, after_pop, flags_in, status_with, with_flags}, Instruction.push_place, NextAccess.handler_registers};

use device_types::even;
use msp_decode::Reg;
use word_arith::{Flags, Size};

/// The program counter, R0.
pub fn pc_in(regs: &[u16; 16]) -> u16
    ensures { result ≡ pc_of regs.now }
{
    regs[0]
}

/// The stack pointer, R1.
pub fn sp_in(regs: &[u16; 16]) -> u16
    ensures { result ≡ sp_of regs.now }
{
    regs[1]
}

/// The status register, R2.
pub fn sr_in(regs: &[u16; 16]) -> u16
    ensures { result ≡ sr_of regs.now }
{
    regs[2]
}

/// What a register holds; R3 reads 0.
pub fn word_in(regs: &[u16; 16], register: Reg) -> u16
    ensures { result ≡ word_in regs.now register }
{
    match register {
        Reg::R3 => 0,
        _ => regs[register.number() as usize],
    }
}

/// A register as an operand.
pub fn operand_in(size: Size, regs: &[u16; 16], register: Reg) -> u16
    ensures { result ≡ operand_in size regs.now register }
{
    size.low_part(word_in(regs, register))
}

// What a register keeps of a word.
fn word_for(register: Reg, word: u16) -> u16
    ensures { result ≡ word_for register word }
{
    match register {
        Reg::R0 | Reg::R1 => even(word),
        Reg::R2 => word % 512,
        Reg::R3 => 0,
        _ => word,
    }
}

pub fn set_register(regs: &mut [u16; 16], register: Reg, word: u16)
    ensures { regs.new ≡ with_register regs.old register word }
{
    regs[register.number() as usize] = word_for(register, word);
}

pub fn set_pc(regs: &mut [u16; 16], pc: u16)
    ensures { regs.new ≡ with_pc regs.old pc }
{
    regs[0] = even(pc);
}

pub fn set_sp(regs: &mut [u16; 16], sp: u16)
    ensures { regs.new ≡ with_sp regs.old sp }
{
    regs[1] = even(sp);
}

fn set_sr(regs: &mut [u16; 16], sr: u16)
    ensures { regs.new ≡ with_sr regs.old sr }
{
    regs[2] = sr % 512;
}

/// A word more was fetched.
pub fn pass_word(regs: &mut [u16; 16])
    ensures { regs.new ≡ after_word regs.old }
{
    set_pc(regs, pc_in(regs).wrapping_add(2));
}

/// Where a push writes.
pub fn lowered_sp(regs: &[u16; 16]) -> u16
    ensures { result ≡ push_place regs.now }
{
    sp_in(regs).wrapping_sub(2)
}

pub fn push(regs: &mut [u16; 16])
    ensures { regs.new ≡ after_push regs.old }
{
    set_sp(regs, lowered_sp(regs));
}

#[inline(always)]
fn pop(regs: &mut [u16; 16])
    ensures { regs.new ≡ after_pop regs.old }
{
    set_sp(regs, sp_in(regs).wrapping_add(2));
}

/// PC was read from the stack.
#[inline(always)]
pub fn pop_pc(regs: &mut [u16; 16], pc: u16)
    ensures { regs.new ≡ with_pc (after_pop regs.old) pc }
{
    pop(regs);
    set_pc(regs, pc);
}

/// SR was read from the stack.
#[inline(always)]
pub fn pop_sr(regs: &mut [u16; 16], sr: u16)
    ensures { regs.new ≡ with_sr (after_pop regs.old) sr }
{
    pop(regs);
    set_sr(regs, sr);
}

/// The flags in SR.
pub fn flags_in(regs: &[u16; 16]) -> Flags
    ensures { result ≡ flags_in regs.now }
{
    let sr = sr_in(regs);
    Flags {
        c: sr % 2 == 1,
        z: sr / 2 % 2 == 1,
        n: sr / 4 % 2 == 1,
        v: sr / 256 % 2 == 1,
    }
}

// SR with other flags.
fn status_with(sr: u16, flags: Flags) -> u16
    ensures { result ≡ status_with sr flags }
{
    u16::from(flags.c)
        + 2 * u16::from(flags.z)
        + 4 * u16::from(flags.n)
        + sr / 8 % 32 * 8
        + 256 * u16::from(flags.v)
}

pub fn set_flags(regs: &mut [u16; 16], flags: Flags)
    ensures { regs.new ≡ with_flags regs.old flags }
{
    set_sr(regs, status_with(sr_in(regs), flags));
}

/// Leaves the flags as they are. SR loses the bits that it does not have.
pub fn keep_flags(regs: &mut [u16; 16])
    ensures { regs.new ≡ with_flags regs.old (flags_in regs.old) }
{
    set_sr(regs, sr_in(regs));
}

/// The registers with which a handler begins that stands at this word.
pub fn enter_handler(regs: &mut [u16; 16], word: u16)
    ensures { regs.new ≡ handler_registers regs.old word }
{
    let sr = sr_in(regs);
    set_sp(regs, sp_in(regs).wrapping_sub(4));
    set_sr(regs, sr / 64 % 2 * 64);
    set_pc(regs, word);
}
