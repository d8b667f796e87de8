ghost use Rattle.std.specs.Prelude.{◌≡◌, ◌≤◌, length};
ghost use Rattle.desk_memory.specs.AnswerReader.{answer_text};

use desk_memory::Answer;
use line_buffer::LineBuffer;
use named_value::Named;

/// An answer in words.
pub fn answer_text(answer: Answer) -> LineBuffer
    ensures text { result ≡ answer_text answer }
    ensures short { length result ≤ 28 }
{
    let mut text = LineBuffer::new();
    match answer {
        Answer::Stale => text.push(b"stale"),
        Answer::Bad(kind) => {
            text.push(b"bad ");
            text.push(kind.name().as_bytes());
        }
        Answer::Spent => text.push(b"spent"),
        Answer::Requested(count) => {
            text.push(b"request ");
            text.push_decimal(u64::from(count));
        }
        Answer::Judged(decision) => {
            text.push(b"verdict ");
            text.push(decision.name().as_bytes());
        }
    }
    text
}
