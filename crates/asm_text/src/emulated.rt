/// An instruction by its name that stands for one of the processor's (SLAU049, the chapter on the
/// 16-bit RISC CPU).
#[derive(Clone, Copy, Debug, PartialEq, Eq)]
pub enum Emulated {
    Adc,
    Br,
    Clr,
    Clrc,
    Clrn,
    Clrz,
    Dadc,
    Dec,
    Decd,
    Dint,
    Eint,
    Inc,
    Incd,
    Inv,
    Nop,
    Pop,
    Ret,
    Rla,
    Rlc,
    Sbc,
    Setc,
    Setn,
    Setz,
    Tst,
}
