ghost use Rattle.std.specs.Prelude.{◌≡◌, ◌≤◌, [], ◌∷◌, codes, length};
ghost use Rattle.hex.specs.Hex.{encode_lower};
ghost use Rattle.outside_edge.specs.Sink.{Puts, CountsFaults};
ghost use Rattle.debug_link.specs.{Conversation.LONGEST_BODY as longest, Packet.packet_of};

use crate::held_body::LONGEST_BODY;
use arrayvec::ArrayVec;
use outside_edge::{Failed, Sink, put_all};
use std::marker::Model;

// A body with `$`, `#` and two check digits.
const LONGEST_PACKET: usize = LONGEST_BODY + 4;

/// Puts packets into a sink, and keeps the last one, since it may be wanted again.
#[derive(Drop)]
pub struct PacketWriter<W: Sink + Drop> {
    sink: W,
    last: ArrayVec<u8, LONGEST_PACKET>,
}

impl<W: Sink + Drop> Model for PacketWriter<W> {
    ghost use Rattle.debug_link.specs.Writing.{PacketSink};

    ghost Value = { PacketSink W };

    ghost view = { λ packets. record { sink = packets.sink; last = packets.last.items } };
}

impl<W: Sink + Drop> PacketWriter<W> {
    /// Before the first packet.
    pub fn new(sink: W) -> PacketWriter<W>
        ensures { result ≡ record { sink = sink; last = [] } }
    {
        PacketWriter {
            sink,
            last: ArrayVec::new(),
        }
    }

    /// The sink, with all that was put.
    pub fn into_sink(self) -> W
        ensures { result ≡ self.sink }
    {
        let PacketWriter { sink, last: _ } = self;
        sink
    }

    /// Puts the packet of a body, in one piece where the sink takes it so. To a debugger `#`, `$`,
    /// `}` and `*` in a body mean something else, so an answer has none of them.
    pub fn put(&mut self, body: &[u8]) -> Result<(), Failed>
        requires { length body.now ≤ longest }
        ensures puts { Puts W.stands self.old.sink self.new.sink (packet_of body.now) result }
        ensures last { self.new.last ≡ packet_of body.now }
        ensures counts { CountsFaults W.faults self.old.sink self.new.sink result }
    {
        write_packet(body, &mut self.last);
        self.put_again()
    }

    /// Puts the packet of bytes as hexadecimal digits of lower case.
    pub fn put_digits(&mut self, bytes: &[u8]) -> Result<(), Failed>
        requires short { length bytes.now ≤ 2048 }
        ensures puts { Puts W.stands self.old.sink self.new.sink
            (packet_of (encode_lower bytes.now)) result }
        ensures last { self.new.last ≡ packet_of (encode_lower bytes.now) }
        ensures counts { CountsFaults W.faults self.old.sink self.new.sink result }
    {
        let mut room = [0; LONGEST_BODY];
        let digits = &mut room[..2 * bytes.len()];
        match hex::encode_to_slice(bytes, digits) {
            Ok(()) => self.put(digits),
            Err(_) => unreachable!(),
        }
    }

    /// Puts the last packet, where there was one.
    pub fn put_again(&mut self) -> Result<(), Failed>
        ensures puts { Puts W.stands self.old.sink self.new.sink self.old.last result }
        ensures last { self.new.last ≡ self.old.last }
        ensures counts { CountsFaults W.faults self.old.sink self.new.sink result }
    {
        put_all(&mut self.sink, &self.last)
    }

    /// Puts `+`: a packet has come whole.
    pub fn accept(&mut self) -> Result<(), Failed>
        ensures puts { Puts W.stands self.old.sink self.new.sink (codes "+") result }
        ensures last { self.new.last ≡ self.old.last }
        ensures counts { CountsFaults W.faults self.old.sink self.new.sink result }
    {
        put_all(&mut self.sink, b"+")
    }

    /// Puts `-`: a packet is damaged, and wanted again.
    pub fn refuse(&mut self) -> Result<(), Failed>
        ensures puts { Puts W.stands self.old.sink self.new.sink (codes "-") result }
        ensures last { self.new.last ≡ self.old.last }
        ensures counts { CountsFaults W.faults self.old.sink self.new.sink result }
    {
        put_all(&mut self.sink, b"-")
    }
}

// Two hexadecimal digits of lower case.
fn digits_of(byte: u8) -> [u8; 2]
    ensures { result ≡ encode_lower (byte ∷ []) }
{
    let mut digits = [0; 2];
    match hex::encode_to_slice(&[byte], &mut digits) {
        Ok(()) => digits,
        Err(_) => unreachable!(),
    }
}

// The packet of a body, in the place of what was there.
fn write_packet(body: &[u8], packet: &mut ArrayVec<u8, LONGEST_PACKET>)
    requires { length body.now ≤ longest }
    ensures { packet.new.items ≡ packet_of body.now }
{
    packet.clear();
    packet.push(b'$');
    let mut sum: u8 = 0;
    for byte in body {
        packet.push(*byte);
        sum = sum.wrapping_add(*byte);
    }
    packet.push(b'#');
    let [high, low] = digits_of(sum);
    packet.push(high);
    packet.push(low);
}
