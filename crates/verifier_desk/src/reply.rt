ghost use Rattle.std.specs.Prelude.{◌≡◌, ◌≤◌, false, length, codes};

use line_buffer::LineBuffer;
use std::marker::Model;

/// One line of reply, and whether the state that it leads to was noted in the memory.
#[derive(Drop)]
pub struct Reply {
    line: LineBuffer,
    is_noted: bool,
}

impl Model for Reply {
    ghost use Rattle.std.specs.Prelude.{◌≤◌, length};
    ghost use Rattle.verifier_desk.specs.Reply.{ReplyFields};

    ghost Value = { ReplyFields };

    ghost view = { λ reply. record { text = reply.line; is_noted = reply.is_noted } };

    ghost invariant = { λ reply. length reply.line ≤ 256 };
}

impl Reply {
    pub(crate) fn new(line: LineBuffer, is_noted: bool) -> Reply
        requires { length line ≤ 256 }
        ensures { result ≡ record { text = line; is_noted = is_noted } }
    {
        Reply { line, is_noted }
    }

    // To a line that is no line of a device.
    pub(crate) fn of_no_device() -> Reply
        ensures { result ≡ record { text = codes "refused\n"; is_noted = false } }
    {
        let mut line = LineBuffer::new();
        line.push(b"refused\n");
        Reply {
            line,
            is_noted: false,
        }
    }

    pub fn as_slice(&self) -> &[u8]
        ensures bytes { result.now ≡ self.now.text }
        ensures short { length result.now ≤ 256 }
    {
        self.line.as_slice()
    }

    pub fn is_noted(&self) -> bool
        ensures { result ≡ self.now.is_noted }
    {
        self.is_noted
    }
}
