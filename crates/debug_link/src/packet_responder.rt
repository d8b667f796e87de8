ghost use Rattle.std.specs.Prelude.{◌≡◌};
ghost use Rattle.debug_link.specs.{Link.Between, Reading.ReaderStandsFor, Serving.came_of as came};

use crate::answer_fault::AnswerFault;
use crate::answerer::Answerer;
use crate::connection::Connection;
use crate::packet_reader::PacketReader;
use crate::packet_writer::PacketWriter;
use crate::serving::answer_piece;
use crate::talk_end::TalkEnd;
use outside_edge::Sink;
use source_server::{Halt, Responder};

/// Finds the packets among the bytes that come, and has each answered.
#[derive(Drop)]
pub struct PacketResponder<A: Answerer + Drop> {
    reader: PacketReader,
    answerer: A,
}

impl<A: Answerer + Drop> PacketResponder<A> {
    /// Before the first byte.
    pub fn new(answerer: A) -> PacketResponder<A>
        ensures answerer { result.answerer ≡ answerer }
        ensures reader { ReaderStandsFor result.reader Between }
    {
        PacketResponder {
            reader: PacketReader::new(),
            answerer,
        }
    }
}

impl<A: Answerer + Drop, W: Sink + Drop> Responder<PacketWriter<W>> for PacketResponder<A> {
    ghost use Rattle.std.specs.Prelude.{◌≤◌};
    ghost use Rattle.debug_link.specs.Serving.{TalkStart, parties_promise};

    type Own = TalkEnd;

    ghost Start = { TalkStart A.Session W };

    ghost promise = { λ start. parties_promise A.stands A.left W.Sink A.reply start };

    ghost since = { λ old new. W.faults old.edge.sink ≤ W.faults new.edge.sink };

    fn answer(&mut self, piece: &[u8], packets: &mut PacketWriter<W>) -> Result<(), Halt<TalkEnd>> {
        came_of(answer_piece(piece, &mut self.reader, &mut self.answerer, packets))
    }

    fn end(&mut self, _packets: &mut PacketWriter<W>) -> Result<(), Halt<TalkEnd>> {
        Ok(())
    }
}

// What comes of a piece, for whoever serves the source.
fn came_of(answered: Result<Connection, AnswerFault>) -> Result<(), Halt<TalkEnd>>
    ensures { result ≡ came answered }
{
    match answered {
        Ok(Connection::Open) => Ok(()),
        Ok(Connection::Closed) => Err(Halt::Own(TalkEnd::Closed)),
        Err(AnswerFault::Write) => Err(Halt::Write),
        Err(AnswerFault::Memory) => Err(Halt::Own(TalkEnd::Memory)),
    }
}
