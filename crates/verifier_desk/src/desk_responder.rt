ghost use Rattle.std.specs.Prelude.{◌≡◌};

use crate::answer_fault::AnswerFault;
use crate::desk::Desk;
use crate::telling::{put_withheld, serve_line};
use crate::withheld::Withheld;
use desk_memory::Memory;
use outside_edge::Sink;
use source_server::{Halt, LineResponder};

/// A desk that answers lines, the replies that it holds back, and its memory.
pub struct DeskResponder<M> {
    desk: Desk,
    withheld: Withheld,
    memory: M,
}

impl<M> DeskResponder<M> {
    /// Before the first line.
    pub fn new(desk: Desk, withheld: Withheld, memory: M) -> DeskResponder<M>
        ensures desk { result.desk ≡ desk }
        ensures withheld { result.withheld ≡ withheld }
        ensures memory { result.memory ≡ memory }
    {
        DeskResponder {
            desk,
            withheld,
            memory,
        }
    }

    pub fn into_memory(self) -> M
        ensures { result ≡ self.memory }
    {
        let DeskResponder {
            desk: _,
            withheld: _,
            memory,
        } = self;
        memory
    }
}

impl<M: Memory, W: Sink> LineResponder<W> for DeskResponder<M> {
    ghost use Rattle.verifier_desk.specs.Telling.{DeskStart, Grows, lines_promise, outside_at};

    type Own = AnswerFault;

    ghost Start = { DeskStart M W };

    ghost promise = { lines_promise M.Memory W.Sink };

    ghost since = { λ old new. Grows M.Memory W.Sink (outside_at old) (outside_at new) };

    fn answer(&mut self, line: Option<&[u8]>, sink: &mut W) -> Result<(), Halt<AnswerFault>> {
        serve_line(
            &mut self.desk,
            line,
            &mut self.withheld,
            &mut self.memory,
            sink,
        )
    }

    fn settle(&mut self, sink: &mut W) -> Result<(), Halt<AnswerFault>> {
        put_withheld(&mut self.withheld, &mut self.memory, sink)
    }
}
