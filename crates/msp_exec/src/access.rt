ghost use Rattle.std.specs.Prelude.{◌≡◌};
ghost use Rattle.device_types.specs.Access.{IsFormed};
ghost use Rattle.part_definitions.specs.BusAccess.{fetch_at, read_at, write_at};
ghost use Rattle.msp_exec.specs.Course.{latched_access};

use crate::instruction::size_of;
use crate::register::{lowered_sp, pc_in, sp_in};
use device_types::{Access, even};
use msp_decode::Head;
use part_definitions::{CpuAccess, WorkingState};
use word_arith::Size;

/// A fetch of the word at a place.
pub fn fetch_at(place: u16) -> Access
    ensures value { result ≡ fetch_at place }
    ensures formed { IsFormed result }
{
    Access::Fetch(even(place))
}

/// A read at a place.
pub fn read_at(size: Size, place: u16) -> Access
    ensures value { result ≡ read_at size place }
    ensures formed { IsFormed result }
{
    match size {
        Size::Byte => Access::Read(place, Size::Byte),
        Size::Word => Access::Read(even(place), Size::Word),
    }
}

/// A write at a place; of a byte it carries the low byte.
pub fn write_at(size: Size, place: u16, number: u16) -> Access
    ensures value { result ≡ write_at size place number }
    ensures formed { IsFormed result }
{
    match size {
        Size::Byte => Access::Write(place, Size::Byte, number % 0x100),
        Size::Word => Access::Write(even(place), Size::Word, number),
    }
}

/// What an instruction asks of the bus; `number` is its result, once it is written.
#[inline(always)]
pub fn bus_access(head: &Head, access: CpuAccess, work: &WorkingState, number: u16) -> Access
    ensures value { result ≡ latched_access head.now access work.now number }
    ensures formed { IsFormed result }
{
    match access {
        CpuAccess::FetchImmediate
        | CpuAccess::FetchSourceIndex(_)
        | CpuAccess::FetchDestinationIndex(_) => fetch_at(pc_in(&work.regs)),
        CpuAccess::ReadSource | CpuAccess::ReadIncrementing(_) | CpuAccess::ReadDestination => {
            read_at(size_of(head), work.place)
        }
        CpuAccess::WriteResult => write_at(size_of(head), work.place, number),
        CpuAccess::PushSource => write_at(size_of(head), lowered_sp(&work.regs), work.source),
        CpuAccess::PushPc => write_at(Size::Word, lowered_sp(&work.regs), pc_in(&work.regs)),
        CpuAccess::PopSr | CpuAccess::PopPc => read_at(Size::Word, sp_in(&work.regs)),
    }
}
