ghost use Rattle.std.specs.Prelude.{◌≡◌, ◌≢◌, ◌<◌, ℕ, List, IfNone, IfSome, length, slice_index};
ghost use Rattle.source_server.specs.{LineCut.LineCut, Lines.{HoldsCut, TellsPiece}, Responder.Moment};

use crate::halt::Halt;
use crate::held_line::HeldLine;
use crate::line_responder::LineResponder;
use crate::responder::Responder;
use memchr::memchr;

/// Cuts the bytes that come into lines, and has each answered as soon as it is whole. A line ends
/// at LF or CRLF, and the last may have no end.
pub struct Lines<L> {
    held: HeldLine,
    responder: L,
}

impl<L> Lines<L> {
    /// Before the first byte.
    pub fn new(held: HeldLine, responder: L) -> Lines<L>
        ensures responder { result.responder ≡ responder }
        ensures held { result.held ≡ held }
    {
        Lines { held, responder }
    }

    pub fn into_responder(self) -> L
        ensures { result ≡ self.responder }
    {
        let Lines { held: _, responder } = self;
        responder
    }
}

impl<E, L: LineResponder<E>> Responder<E> for Lines<L> {
    ghost use Rattle.source_server.specs.Lines.{promise_of, since_of};

    type Own = L::Own;

    ghost Start = { L.Start };

    ghost promise = { λ start. promise_of (L.promise start) };

    ghost since = { since_of L.since };

    fn answer(&mut self, piece: &[u8], edge: &mut E) -> Result<(), Halt<L::Own>> {
        answer_lines(&mut self.held, piece, &mut self.responder, edge)?;
        self.responder.settle(edge)
    }

    fn end(&mut self, edge: &mut E) -> Result<(), Halt<L::Own>> {
        if self.held.is_empty() {
            return Ok(());
        }
        self.responder.answer(self.held.line_at_end(), edge)?;
        self.responder.settle(edge)
    }
}

// Answers the lines that end in a piece, and holds what follows them.
fn answer_lines<E, L: LineResponder<E>>(
    held: &mut HeldLine,
    piece: &[u8],
    responder: &mut L,
    edge: &mut E,
) -> Result<(), Halt<L::Own>>
    ensures tells { (start : L.Start) (cut : LineCut)
        → HoldsCut (L.promise start) held.old
        (record { responder = responder.old; edge = edge.old }) cut
        → TellsPiece (L.promise start) held.new
        (record { responder = responder.new; edge = edge.new }) cut piece.now result }
    ensures grows { (first : Moment L E)
        → L.since first (record { responder = responder.old; edge = edge.old })
        → L.since first (record { responder = responder.new; edge = edge.new }) }
{
    let mut rest = piece;
    while let Some(end) = line_end(rest) {
        held.push(&rest[..end]);
        responder.answer(held.line_at_newline(), edge)?;
        held.clear();
        rest = &rest[end + 1..];
    }
    held.push(rest);
    Ok(())
}

// The place of the first LF.
fn line_end(bytes: &[u8]) -> Option<usize>
    ensures within { IfSome result (λ end. end < length bytes.now) }
    ensures before { IfSome result (λ end. (k : ℕ) → k < end → slice_index bytes.now k ≢ 10) }
    ensures end { IfSome result (λ end. slice_index bytes.now end ≡ 10) }
    ensures none { IfNone result ((k : ℕ) → k < length bytes.now → slice_index bytes.now k ≢ 10) }
{
    memchr(b'\n', bytes)
}
