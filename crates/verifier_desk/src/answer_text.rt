ghost use Rattle.std.specs.Prelude.{◌≡◌, ◌≤◌, ◌+◌, length};
ghost use Rattle.printed_lines.specs.Line.{with_pieces};
ghost use Rattle.sha2.specs.Sha256.{sha256};
ghost use Rattle.verifier_desk.specs.Replies.{answer_line, answer_verb, answer_pieces};

use crate::challenge::desk_challenge;
use desk_memory::Answer;
use line_buffer::LineBuffer;
use named_value::Named;
use report_text::add_request;
use report_verifier::token;

/// The line of an answer: its verb, the device's name, the number of the device's line, and what
/// it says.
pub fn answer_line(key: &[u8; 64], name: &[u8], number: u32, answer: Answer) -> LineBuffer
    requires { length name.now ≤ 32 }
    ensures text { result
        ≡ answer_line sha256 (record { name = name.now; key = key.now }) number answer }
    ensures short { length result ≤ 256 }
{
    let mut line = LineBuffer::new();
    line.push(verb_of(answer));
    line.add_text(name);
    line.add_decimal(u64::from(number));
    add_answer(&mut line, key, answer);
    line.push(b"\n");
    line
}

fn verb_of(answer: Answer) -> &'static [u8]
    ensures text { result.now ≡ answer_verb answer }
    ensures len { length result.now ≤ 7 }
{
    match answer {
        Answer::Stale => b"stale",
        Answer::Bad(_) => b"bad",
        Answer::Spent => b"spent",
        Answer::Requested(_) => b"request",
        Answer::Judged(_) => b"verdict",
    }
}

// What an answer says behind the number.
fn add_answer(line: &mut LineBuffer, key: &[u8; 64], answer: Answer)
    requires { length line.old ≤ 64 }
    ensures text { line.new ≡ with_pieces line.old (answer_pieces sha256 key.now answer) }
    ensures len { length line.new ≤ length line.old + 157 }
{
    match answer {
        Answer::Stale | Answer::Spent => {}
        Answer::Bad(kind) => line.add_text(kind.name().as_bytes()),
        Answer::Requested(count) => {
            let chal = desk_challenge(key, count);
            add_request(line, &chal, count, &token(key, &chal, count));
        }
        Answer::Judged(decision) => line.add_text(decision.name().as_bytes()),
    }
}
