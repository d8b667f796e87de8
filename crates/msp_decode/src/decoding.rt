ghost use Rattle.std.specs.Prelude.{◌≡◌, ◌↔◌, ◌<◌, ◌≤◌, IsNone};
ghost use Rattle.msp_decode.specs.{declared.head.Head.Head, Spelling.{Spells, IsIllegalWord}, Head.{head_of, one_head, two_head, jump_head}};

use crate::cond::Cond;
use crate::dest_form::DestForm;
use crate::field::{offset_from_number, op2_from_number, size_from_number};
use crate::head::Head;
use crate::one::One;
use crate::source_form::SourceForm;

#[inline(always)]
fn one_operand(word: u16) -> Option<Head>
    requires least { 0x1000 ≤ word }
    requires most { word < 0x1300 }
    ensures { result ≡ one_head word }
{
    let op = One::from_number(word / 0x80 % 8);
    let size = size_from_number(word / 0x40 % 2);
    let source = SourceForm::from_fields(word / 0x10 % 4, word % 16);
    if op.has_size(size) && (source.takes_result() || !op.writes_operand()) {
        Some(Head::One(op, size, source))
    } else {
        None
    }
}

#[inline(always)]
fn jump(word: u16) -> Head
    ensures { result ≡ jump_head word }
{
    Head::Jump(
        Cond::from_number(word / 0x400 % 8),
        offset_from_number(word % 0x400),
    )
}

#[inline(always)]
fn two_operands(word: u16) -> Head
    requires { 0x4000 ≤ word }
    ensures { result ≡ two_head word }
{
    Head::Two(
        op2_from_number(word / 0x1000),
        size_from_number(word / 0x40 % 2),
        SourceForm::from_fields(word / 0x10 % 4, word / 0x100 % 16),
        DestForm::from_fields(word / 0x80 % 2, word % 16),
    )
}

/// The head that a word spells (SLAU049); `None` exactly on the illegal words.
#[inline(always)]
#[tactic(auto, unfolding(crate::specs::Head::head_of))]
pub fn decode(word: u16) -> Option<Head>
    ensures value { result ≡ head_of word }
    ensures spelled { (head : Head) → (result ≡ Some head) ↔ Spells word head }
    ensures illegal { IsNone result ↔ IsIllegalWord word }
{
    match word {
        0x0000..=0x0FFF => None,
        0x1000..=0x12FF => one_operand(word),
        0x1300 => Some(Head::Reti),
        0x1301..=0x1FFF => None,
        0x2000..=0x3FFF => Some(jump(word)),
        _ => Some(two_operands(word)),
    }
}
