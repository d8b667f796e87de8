ghost use Rattle.std.specs.Prelude.{◌≡◌, ◌<◌};

use crate::reg::Reg;

/// A destination operand whose extension word is not yet known.
#[derive(Clone, Copy, Debug, PartialEq, Eq)]
pub enum DestForm {
    Register(Reg),
    Indexed(Reg),
}

impl DestForm {
    ghost use Rattle.msp_decode.specs.{Table.dest_fields, Field.dest_of};

    // The mode (Ad) and the register field with which the form is written.
    pub(crate) fn fields(self) -> (u16, u16)
        ensures value { result ≡ dest_fields self }
        ensures mode_fits { result.0 < 2 }
        ensures register_fits { result.1 < 16 }
    {
        match self {
            DestForm::Register(register) => (0, register.number()),
            DestForm::Indexed(register) => (1, register.number()),
        }
    }

    // The form of a mode and a register field.
    pub(crate) fn from_fields(mode: u16, register: u16) -> DestForm
        requires mode_fits { mode < 2 }
        requires register_fits { register < 16 }
        ensures { result ≡ dest_of mode register }
    {
        let register = Reg::from_number(register);
        match mode {
            0 => DestForm::Register(register),
            _ => DestForm::Indexed(register),
        }
    }
}
