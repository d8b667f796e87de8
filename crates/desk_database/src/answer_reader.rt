ghost use Rattle.std.specs.Prelude.{◌≡◌, IfSome, IsTrue};
ghost use Rattle.text_scan.specs.Reader.{ReadsOn};
ghost use Rattle.desk_memory.specs.{AnswerReader.{answer_of, answer_with, answer_text}, Entry.is_short_answer, declared.answer.Answer.Answer as Said};

use crate::printed_answer::answer_text;
use desk_memory::Answer;
use text_scan::{FaultKind, Words};

/// The answer that a text says.
pub fn answer_of_text(text: &[u8]) -> Option<Answer>
    ensures said { IfSome result (λ answer. text.now ≡ answer_text answer) }
    ensures read { (answer : Said) → IsTrue (is_short_answer answer)
        → text.now ≡ answer_text answer → result ≡ Some answer }
{
    let answer = answer_like(text)?;
    if answer_text(answer).as_slice() == text {
        Some(answer)
    } else {
        None
    }
}

// The one answer that a text may say.
#[tactic(auto, using(crate::proofs::TableRows::answer_told, crate::proofs::TableRows::answer_untold))]
fn answer_like(text: &[u8]) -> Option<Answer>
    ensures { (answer : Said) → IsTrue (is_short_answer answer)
        → text.now ≡ answer_text answer → result ≡ Some answer }
{
    let mut words = Words::new(text);
    match next_answer(&mut words) {
        Ok(answer) => Some(answer),
        Err(_) => None,
    }
}

/// The answer that the words say which come next: its verb, and what comes of it.
#[tactic(auto, unfolding(desk_memory::specs::AnswerReader::answer_of))]
pub fn next_answer(words: &mut Words<'_>) -> Result<Answer, FaultKind>
    ensures { ReadsOn result words.new (answer_of words.old) }
{
    answer_of_verb(words.word()?, words)
}

// What an answer of this verb says.
#[tactic(auto, unfolding(desk_memory::specs::AnswerReader::answer_with))]
fn answer_of_verb(verb: &[u8], words: &mut Words<'_>) -> Result<Answer, FaultKind>
    ensures { ReadsOn result words.new (answer_with verb.now words.old) }
{
    if verb == b"stale".as_slice() {
        Ok(Answer::Stale)
    } else if verb == b"spent".as_slice() {
        Ok(Answer::Spent)
    } else if verb == b"bad".as_slice() {
        Ok(Answer::Bad(words.value()?))
    } else if verb == b"verdict".as_slice() {
        Ok(Answer::Judged(words.value()?))
    } else if verb == b"request".as_slice() {
        Ok(Answer::Requested(words.number(0, u64::from(u32::MAX))? as u32))
    } else {
        Err(FaultKind::Word)
    }
}
