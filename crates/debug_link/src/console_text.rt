ghost use Rattle.std.specs.Prelude.{◌≡◌, ◌<◌, ◌≤◌, ◌+◌, ◌*◌, [], ◌∷◌, length, OnOk};
ghost use Rattle.arrayvec.specs.ArrayVec.{array_vec_len};
ghost use Rattle.outside_edge.specs.Sink.{CountsFaults};
ghost use Rattle.debug_link.specs.{Console.{AddsText, console, text_body}, Writing.PutsPackets};

use crate::packet_writer::PacketWriter;
use arrayvec::ArrayVec;
use outside_edge::{Failed, Sink};
use std::marker::Model;

// The most bytes of text in one packet.
const MOST_TEXT: usize = 1_024;

/// Text for the console of a debugger, in packets of at most 1,024 bytes of it each. What does not
/// fill a packet yet is kept.
#[derive(Drop)]
pub struct ConsoleText {
    rest: ArrayVec<u8, MOST_TEXT>,
}

impl Model for ConsoleText {
    ghost use Rattle.std.specs.Prelude.{ℕ, List};

    ghost Value = { List ℕ };

    ghost view = { λ text. text.rest.items };
}

impl ConsoleText {
    pub fn new() -> ConsoleText
        ensures { result ≡ [] }
    {
        ConsoleText {
            rest: ArrayVec::new(),
        }
    }

    /// Takes more text, and puts the packets that are full.
    pub fn add<W: Sink + Drop>(
        &mut self,
        text: &[u8],
        packets: &mut PacketWriter<W>,
    ) -> Result<(), Failed>
        ensures adds { AddsText W.Sink packets.old packets.new self.old text.now self.new result }
        ensures counts { CountsFaults W.faults packets.old.sink packets.new.sink result }
    {
        for byte in text {
            put_full(&mut self.rest, packets)?;
            self.rest.push(*byte);
        }
        Ok(())
    }

    /// Puts what is kept, at the end of a text.
    pub fn finish<W: Sink + Drop>(&self, packets: &mut PacketWriter<W>) -> Result<(), Failed>
        ensures puts { PutsPackets W.Sink packets.old packets.new (console self.now) result }
        ensures counts { CountsFaults W.faults packets.old.sink packets.new.sink result }
    {
        if self.rest.is_empty() {
            Ok(())
        } else {
            put_piece(&self.rest, packets)
        }
    }
}

/// Puts a whole text on the console.
pub fn put_text<W: Sink + Drop>(text: &[u8], packets: &mut PacketWriter<W>) -> Result<(), Failed>
    ensures puts { PutsPackets W.Sink packets.old packets.new (console text.now) result }
    ensures counts { CountsFaults W.faults packets.old.sink packets.new.sink result }
{
    let mut console = ConsoleText::new();
    console.add(text, packets)?;
    console.finish(packets)
}

// Puts what is kept where it fills a packet, so that there is room for more.
fn put_full<W: Sink + Drop>(
    rest: &mut ArrayVec<u8, MOST_TEXT>,
    packets: &mut PacketWriter<W>,
) -> Result<(), Failed>
    ensures adds { AddsText W.Sink packets.old packets.new rest.old.items [] rest.new.items
        result }
    ensures room { OnOk result (array_vec_len rest.new < MOST_TEXT) }
    ensures counts { CountsFaults W.faults packets.old.sink packets.new.sink result }
{
    if rest.is_full() {
        put_piece(rest, packets)?;
        rest.clear();
    }
    Ok(())
}

// Puts the packet of a piece of text.
fn put_piece<W: Sink + Drop>(piece: &[u8], packets: &mut PacketWriter<W>) -> Result<(), Failed>
    requires { length piece.now ≤ MOST_TEXT }
    ensures puts { PutsPackets W.Sink packets.old packets.new (text_body piece.now ∷ []) result }
    ensures counts { CountsFaults W.faults packets.old.sink packets.new.sink result }
{
    let mut room = [0; 2 * MOST_TEXT + 1];
    let body = &mut room[..2 * piece.len() + 1];
    write_body(piece, body);
    packets.put(body)
}

// Writes the body of that packet.
fn write_body(piece: &[u8], body: &mut [u8])
    requires { length body.old ≡ 2 * length piece.now + 1 }
    ensures { body.new ≡ text_body piece.now }
{
    body[0] = b'O';
    match hex::encode_to_slice(piece, &mut body[1..]) {
        Ok(()) => {}
        Err(_) => unreachable!(),
    }
}
