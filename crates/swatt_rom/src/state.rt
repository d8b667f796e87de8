ghost use Rattle.std.specs.Prelude.{IfSome};
ghost use Rattle.device_types.specs.Access.{IsFormed};
ghost use Rattle.part_definitions.specs.Part.{Answers, Becomes};
ghost use Rattle.swatt_rom.specs.RomCall.{rom_access, rom_pc, call_end, after_value};

use crate::call_end::CallEnd;
use crate::phase::Phase;
use device_types::{Access, ROM_EXIT, even};
use hmac_core::Digest32;
use word_arith::Size;

/// Whether there is a call, and where it stands.
#[derive(Drop)]
pub enum State<D> {
    /// No call.
    Idle,
    /// In a call that began with this stack pointer.
    Calls { sp: u16, phase: Phase<D> },
    /// Before the return read, at the stack pointer, of a call with this decision.
    Returns { sp: u16, decision: u16 },
    /// After the last step.
    Leaves { end: CallEnd },
}

impl<D: Digest32> State<D> {
    ghost use Rattle.swatt_rom.specs.Rom.{StateStandsFor};

    pub fn access(&self) -> Option<Access>
        ensures access { Answers (StateStandsFor D.hash) self.now
            (rom_access D.hash.digest_of) result }
        ensures formed { IfSome result IsFormed }
    {
        match self {
            State::Calls { phase, .. } => Some(phase.access()),
            State::Returns { sp, .. } => Some(Access::Read(even(*sp), Size::Word)),
            State::Idle | State::Leaves { .. } => None,
        }
    }

    pub fn pc(&self) -> u16
        ensures { Answers (StateStandsFor D.hash) self.now rom_pc result }
    {
        match self {
            State::Calls { phase, .. } => phase.pc(),
            State::Returns { .. } => ROM_EXIT,
            State::Idle | State::Leaves { .. } => 0,
        }
    }

    /// What the call leaves, after its last step.
    pub fn call_end(&self) -> Option<CallEnd>
        ensures { Answers (StateStandsFor D.hash) self.now call_end result }
    {
        match self {
            State::Leaves { end } => Some(*end),
            _ => None,
        }
    }

    /// Takes the value that the access read.
    pub fn take(&mut self, value: u16)
        ensures { Becomes (StateStandsFor D.hash) self.old
            (λ call. after_value D.hash.digest_of call value) self.new }
    {
        match self {
            State::Calls { sp, phase } => match phase.take(value) {
                None => {}
                Some(decision) => *self = State::Returns { sp: *sp, decision },
            },
            State::Returns { sp, decision } => {
                let end = CallEnd {
                    pc: even(value),
                    sp: sp.wrapping_add(2),
                    decision: *decision,
                };
                *self = State::Leaves { end };
            }
            State::Idle | State::Leaves { .. } => {}
        }
    }
}
