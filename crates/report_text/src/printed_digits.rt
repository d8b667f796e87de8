ghost use Rattle.std.specs.Prelude.{◌≤◌, ◌++◌, length};
ghost use Rattle.hex.specs.Hex.{encode_lower};
ghost use Rattle.outside_edge.specs.Sink.{Puts, CountsFaults};

use line_buffer::LineBuffer;
use outside_edge::{Failed, Sink, put_all};

// How many bytes are put at once.
const PIECE: usize = 32;

/// Puts two digits a byte, behind a text.
pub fn print_digits<W: Sink>(text: &[u8], bytes: &[u8], sink: &mut W) -> Result<(), Failed>
    ensures puts { Puts W.stands sink.old sink.new (text.now ++ encode_lower bytes.now) result }
    ensures counts { CountsFaults W.faults sink.old sink.new result }
{
    put_all(sink, text)?;
    print_hex(bytes, sink)
}

fn print_hex<W: Sink>(bytes: &[u8], sink: &mut W) -> Result<(), Failed>
    ensures puts { Puts W.stands sink.old sink.new (encode_lower bytes.now) result }
    ensures counts { CountsFaults W.faults sink.old sink.new result }
{
    let mut rest = bytes;
    while rest.len() > PIECE {
        let (piece, later) = rest.split_at(PIECE);
        print_piece(piece, sink)?;
        rest = later;
    }
    print_piece(rest, sink)
}

fn print_piece<W: Sink>(bytes: &[u8], sink: &mut W) -> Result<(), Failed>
    requires { length bytes.now ≤ 32 }
    ensures puts { Puts W.stands sink.old sink.new (encode_lower bytes.now) result }
    ensures counts { CountsFaults W.faults sink.old sink.new result }
{
    let mut line = LineBuffer::new();
    line.push_hex(bytes);
    put_all(sink, line.as_slice())
}
