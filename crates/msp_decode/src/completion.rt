ghost use Rattle.std.specs.Prelude.{◌≡◌, ◌≤◌, ◌+◌, [], ◌∷◌, take};
ghost use Rattle.msp_decode.specs.Completion.{head_part, extension_words, source_extensions, dest_extensions, extension_count, source_completion, dest_completion, completion};

use crate::dest::Dest;
use crate::dest_form::DestForm;
use crate::head::Head;
use crate::instr::Instr;
use crate::source::Source;
use crate::source_form::SourceForm;

fn source_extensions(source: SourceForm) -> u8
    ensures value { result ≡ source_extensions source }
    ensures most { result ≤ 1 }
{
    match source {
        SourceForm::Indexed(_) | SourceForm::Immediate => 1,
        _ => 0,
    }
}

fn dest_extensions(dest: DestForm) -> u8
    ensures value { result ≡ dest_extensions dest }
    ensures most { result ≤ 1 }
{
    match dest {
        DestForm::Register(_) => 0,
        DestForm::Indexed(_) => 1,
    }
}

/// The number of extension words.
pub fn extensions(head: &Head) -> u8
    ensures value { result ≡ extension_count head.now }
    ensures most { result ≤ 2 }
{
    match *head {
        Head::Two(_, _, source, dest) => source_extensions(source) + dest_extensions(dest),
        Head::One(_, _, source) => source_extensions(source),
        Head::Reti | Head::Jump(..) => 0,
    }
}

fn complete_source(source: SourceForm, word: u16) -> Source
    ensures { result ≡ source_completion source word }
{
    match source {
        SourceForm::Register(register) => Source::Reg(register),
        SourceForm::Indexed(register) => Source::Indexed(register, word),
        SourceForm::Indirect(register) => Source::Indirect(register),
        SourceForm::IndirectInc(register) => Source::IndirectInc(register),
        SourceForm::Immediate => Source::Immediate(word),
        SourceForm::Constant(constant) => Source::Constant(constant),
    }
}

fn complete_dest(dest: DestForm, word: u16) -> Dest
    ensures { result ≡ dest_completion dest word }
{
    match dest {
        DestForm::Register(register) => Dest::Reg(register),
        DestForm::Indexed(register) => Dest::Indexed(register, word),
    }
}

/// The instruction with its extension words, those of the source first. Words that are not needed
/// are ignored.
pub fn complete(head: &Head, first: u16, second: u16) -> Instr
    ensures value { result ≡ completion head.now first second }
    ensures head { head_part result ≡ head.now }
    ensures words { extension_words result ≡ take (extension_count head.now) (first ∷ second ∷ []) }
{
    match *head {
        Head::Two(op, size, source, dest) => {
            let last = if source_extensions(source) == 0 {
                first
            } else {
                second
            };
            Instr::Two(
                op,
                size,
                complete_source(source, first),
                complete_dest(dest, last),
            )
        }
        Head::One(op, size, source) => Instr::One(op, size, complete_source(source, first)),
        Head::Reti => Instr::Reti,
        Head::Jump(cond, offset) => Instr::Jump(cond, offset),
    }
}
