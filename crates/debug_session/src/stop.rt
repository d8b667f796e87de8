ghost use Rattle.std.specs.Prelude.{◌≡◌, ◌≤◌, ◌+◌, ◌++◌, codes, length};
ghost use Rattle.line_buffer.specs.declared.line_buffer.TheConstants.{ROOM};
ghost use Rattle.debug_session.specs.StopReply.{hexadecimal, zeros_of, refusal_reply, stop_reply, watch_word};

use crate::watch::{Hit, WatchKind};
use device_types::Rule;
use line_buffer::LineBuffer;

/// Why a device stands where it stands.
#[derive(Clone, Copy, Debug, PartialEq, Eq)]
pub enum Stop {
    /// At a breakpoint, at a number of steps, or at first.
    Plain,
    /// Behind a step; going back, before the instruction that is stepped back over.
    Stepped,
    Watched(Hit),
    /// Before the instruction that breaks a rule.
    Refused(Rule),
    /// An interrupt came on the way.
    Interrupted,
    /// As many steps were made as are made at most.
    End,
    /// There was no cause before.
    Begin,
}

impl Stop {
    /// The reply to a debugger.
    pub fn reply(self) -> LineBuffer
        ensures text { result ≡ stop_reply self }
    {
        let mut reply = LineBuffer::new();
        match self {
            Stop::Plain | Stop::Stepped => reply.push(b"T05"),
            Stop::Watched(hit) => push_hit(&mut reply, hit),
            Stop::Refused(rule) => reply.push(refusal_reply(rule)),
            Stop::Interrupted => reply.push(b"T02"),
            Stop::End => reply.push(b"T05replaylog:end;"),
            Stop::Begin => reply.push(b"T05replaylog:begin;"),
        }
        reply
    }
}

fn push_hit(reply: &mut LineBuffer, hit: Hit)
    requires { length reply.old + 16 ≤ ROOM }
    ensures { reply.new ≡ reply.old ++ watch_word hit.kind ++ hexadecimal hit.place ++ codes ";" }
{
    reply.push(watch_word(hit.kind));
    push_hexadecimal(reply, hit.place);
    reply.push(b";");
}

fn watch_word(kind: WatchKind) -> &'static [u8]
    ensures word { result.now ≡ watch_word kind }
    ensures len { length result.now ≤ 10 }
{
    match kind {
        WatchKind::Write => b"T05watch:",
        WatchKind::Read => b"T05rwatch:",
        WatchKind::Either => b"T05awatch:",
    }
}

fn refusal_reply(rule: Rule) -> &'static [u8]
    ensures reply { result.now ≡ refusal_reply rule }
    ensures len { length result.now ≡ 3 }
{
    match rule {
        Rule::I1 => b"T04",
        Rule::K4 | Rule::K5 | Rule::K6 => b"T0a",
        _ => b"T0b",
    }
}

fn push_hexadecimal(reply: &mut LineBuffer, word: u16)
    requires { length reply.old + 4 ≤ ROOM }
    ensures text { reply.new ≡ reply.old ++ hexadecimal word }
    ensures len { length reply.new ≤ length reply.old + 4 }
{
    let mut digits = LineBuffer::new();
    digits.push_word(word);
    let digits = digits.as_slice();
    reply.push(&digits[zeros_of(word)..]);
}

// The number of zeros in front of the others of four digits.
fn zeros_of(word: u16) -> usize
    ensures zeros { result ≡ zeros_of word }
    ensures few { result ≤ 3 }
{
    if word < 0x10 {
        3
    } else if word < 0x100 {
        2
    } else if word < 0x1000 {
        1
    } else {
        0
    }
}
