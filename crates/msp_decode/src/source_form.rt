ghost use Rattle.std.specs.Prelude.{◌≡◌, ◌<◌, IsTrue};

use crate::constant::Gen;
use crate::reg::Reg;

// The mode and the register field of each form; where the register is its own, the mode alone.
macro_rules! sources {
    ($read:ident $of:expr) => {
        $read!($of;
            (3, 0) [Immediate], (0, 3) [Constant(Gen::Zero)], (1, 3) [Constant(Gen::One)],
            (2, 3) [Constant(Gen::Two)], (2, 2) [Constant(Gen::Four)],
            (3, 2) [Constant(Gen::Eight)], (3, 3) [Constant(Gen::MinusOne)];
            0 Register, 1 Indexed, 2 Indirect, 3 IndirectInc)
    };
}

macro_rules! fields_of {
    ($form:expr; $($fields:tt [$($value:tt)+]),+; $($mode:literal $in_mode:ident),+) => {
        match $form {
            $(SourceForm::$($value)+ => $fields,)+
            $(SourceForm::$in_mode(register) => ($mode, register.number()),)+
        }
    };
}

macro_rules! form_of {
    ($of:expr; $($fields:tt [$($value:tt)+]),+; $($mode:literal $in_mode:ident),+) => {
        match $of {
            $($fields => SourceForm::$($value)+,)+
            $(($mode, register) => SourceForm::$in_mode(Reg::from_number(register)),)+
            _ => unreachable!(),
        }
    };
}

/// A source operand whose extension word is not yet known.
#[derive(Clone, Copy, Debug, PartialEq, Eq)]
pub enum SourceForm {
    Register(Reg),
    Indexed(Reg),
    Indirect(Reg),
    IndirectInc(Reg),
    Immediate,
    Constant(Gen),
}

impl SourceForm {
    ghost use Rattle.msp_decode.specs.{Table.source_fields, Field.source_of, Spelling.{has_form, takes_result}};

    // The mode (As) and the register field with which the form is written.
    pub(crate) fn fields(self) -> (u16, u16)
        ensures value { result ≡ source_fields self }
        ensures mode_fits { result.0 < 4 }
        ensures register_fits { result.1 < 16 }
    {
        sources!(fields_of self)
    }

    // The form of a mode and a register field.
    #[inline(always)]
    pub(crate) fn from_fields(mode: u16, register: u16) -> SourceForm
        requires mode_fits { mode < 4 }
        requires register_fits { register < 16 }
        ensures value { result ≡ source_of mode register }
        ensures formed { IsTrue (has_form result) }
    {
        sources!(form_of(mode, register))
    }

    /// Whether words are written with the form: R3, R2 and R0 give a constant or an immediate in
    /// some modes.
    pub fn has_form(self) -> bool
        ensures { result ≡ has_form self }
    {
        !matches!(
            self,
            SourceForm::Register(Reg::R3)
                | SourceForm::Indexed(Reg::R3)
                | SourceForm::Indirect(Reg::R2 | Reg::R3)
                | SourceForm::IndirectInc(Reg::R0 | Reg::R2 | Reg::R3)
        )
    }

    // Whether a result can be written to the operand.
    pub(crate) fn takes_result(self) -> bool
        ensures { result ≡ takes_result self }
    {
        !matches!(self, SourceForm::Immediate | SourceForm::Constant(_))
    }
}
