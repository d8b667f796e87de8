ghost use Rattle.std.specs.Prelude.{◌≡◌, ◌≤◌, ℕ, List, [], Option, false, length, IfSome, option_map};
ghost use Rattle.outside_edge.specs.Sink.{CountsFaults, Puts};
ghost use Rattle.source_server.specs.Serving.{Serves};
ghost use Rattle.debug_link.specs.{Conversation.{HaveCome, Input, LONGEST_BODY as longest, Talk, answer_to, input_bytes, count_of, interrupts_of, mark_of, talk_with_byte, talk_with_inputs}, Link.Message, HeldBody.short_body, Reading.heard_of, Serving.{GoesOnTo, TalkStandsFor, talk_promise}, Writing.{Answers, CountsWriteFaults}};

use crate::answer_fault::AnswerFault;
use crate::answerer::Answerer;
use crate::connection::Connection;
use crate::packet_reader::{Heard, PacketReader};
use crate::packet_responder::PacketResponder;
use crate::packet_writer::PacketWriter;
use crate::talk_end::TalkEnd;
use outside_edge::{Failed, Sink, Source};
use source_server::Served;

/// Answers the packets of a source, each as soon as it is whole: `+` is put before its answerer is
/// asked, since a debugger waits for it a short time alone.
pub fn serve<R: Source, A: Answerer + Drop, W: Sink + Drop>(
    source: &mut R,
    answerer: A,
    packets: &mut PacketWriter<W>,
) -> Served<TalkEnd>
    ensures serves { (session : A.Session) → A.stands answerer session
        → packets.old.last ≡ []
        → Serves R.Source (talk_promise W.Sink A.reply
        (record { session = session; sink = packets.old.sink; left = A.left answerer }))
        source.old source.new packets.new.sink result }
    ensures source_faults { R.faults source.old ≤ R.faults source.new }
    ensures sink_faults { W.faults packets.old.sink ≤ W.faults packets.new.sink }
{
    let mut responder = PacketResponder::new(answerer);
    source_server::serve(source, &mut responder, packets)
}

/// Answers the packets that end in a piece, as long as the connection is open.
pub fn answer_piece<A: Answerer, W: Sink + Drop>(
    piece: &[u8],
    reader: &mut PacketReader,
    answerer: &mut A,
    packets: &mut PacketWriter<W>,
) -> Result<Connection, AnswerFault>
    ensures goes_on { (talk : Talk A.Session) (first : W) → talk.is_over ≡ false
        → TalkStandsFor A.stands W.Sink first
        (record { reader = reader.old; answerer = answerer.old; packets = packets.old }) talk
        → (inputs : List (Input A.Interrupt)) × (input_bytes inputs ≡ piece.now)
        × HaveCome (interrupts_of inputs) (A.left answerer.old) (A.left answerer.new)
        × GoesOnTo A.stands W.Sink first
        (record { reader = reader.new; answerer = answerer.new; packets = packets.new })
        (talk_with_inputs A.reply talk inputs) result }
    ensures counts { CountsWriteFaults W.faults packets.old.sink packets.new.sink result }
{
    for byte in piece {
        match answer_byte(*byte, reader, answerer, packets)? {
            Connection::Open => {}
            Connection::Closed => return Ok(Connection::Closed),
        }
    }
    Ok(Connection::Open)
}

// Answers the packet that ends in a byte, if one does.
fn answer_byte<A: Answerer, W: Sink + Drop>(
    byte: u8,
    reader: &mut PacketReader,
    answerer: &mut A,
    packets: &mut PacketWriter<W>,
) -> Result<Connection, AnswerFault>
    ensures goes_on { (talk : Talk A.Session) (first : W) → talk.is_over ≡ false
        → TalkStandsFor A.stands W.Sink first
        (record { reader = reader.old; answerer = answerer.old; packets = packets.old }) talk
        → (interrupt : Option A.Interrupt)
        × HaveCome (count_of interrupt) (A.left answerer.old) (A.left answerer.new)
        × GoesOnTo A.stands W.Sink first
        (record { reader = reader.new; answerer = answerer.new; packets = packets.new })
        (talk_with_byte (A.reply interrupt) talk byte) result }
    ensures counts { CountsWriteFaults W.faults packets.old.sink packets.new.sink result }
{
    let heard = reader.take(byte);
    put_mark(heard, packets)?;
    match heard {
        Heard::Whole => answer_body(reader.body(), answerer, packets),
        _ => Ok(Connection::Open),
    }
}

// Puts what is due at once.
fn put_mark<W: Sink + Drop>(heard: Heard, packets: &mut PacketWriter<W>) -> Result<(), Failed>
    ensures puts { (message : Message) → heard ≡ heard_of message
        → Puts W.stands packets.old.sink packets.new.sink (mark_of packets.old.last message)
        result }
    ensures last { packets.new.last ≡ packets.old.last }
    ensures counts { CountsFaults W.faults packets.old.sink packets.new.sink result }
{
    match heard {
        Heard::Silence => Ok(()),
        Heard::Again => packets.put_again(),
        Heard::Damage => packets.refuse(),
        Heard::Whole => packets.accept(),
    }
}

// Answers a body; `None` is one that is too long.
fn answer_body<A: Answerer, W: Sink + Drop>(
    body: Option<&[u8]>,
    answerer: &mut A,
    packets: &mut PacketWriter<W>,
) -> Result<Connection, AnswerFault>
    requires { IfSome body (λ bytes. length bytes.now ≤ longest) }
    ensures answers { (session : A.Session) (bytes : List ℕ) → A.stands answerer.old session
        → option_map (λ bytes. bytes.now) body.entry ≡ short_body bytes
        → (interrupt : Option A.Interrupt)
        × HaveCome (count_of interrupt) (A.left answerer.old) (A.left answerer.new)
        × Answers A.stands W.Sink packets.old packets.new
        answerer.new (answer_to (A.reply interrupt) session bytes) result }
    ensures counts { CountsWriteFaults W.faults packets.old.sink packets.new.sink result }
{
    match body {
        Some(body) => answerer.answer(body, packets),
        None => {
            packets.put(b"")?;
            Ok(Connection::Open)
        }
    }
}
