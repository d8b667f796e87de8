ghost use Rattle.std.specs.Prelude.{◌≡◌, ◌≤◌, ◌+◌, length};
ghost use Rattle.outside_edge.specs.Sink.{Puts, CountsFaults};
ghost use Rattle.printed_lines.specs.Line.{with_pieces};
ghost use Rattle.report_text.specs.RequestLine.{request_pieces, request_line};

use line_buffer::LineBuffer;
use outside_edge::{Failed, Sink, put_all};

/// Adds `H64 n token H64`: the challenge, the counter and the token of a request.
pub fn add_request(line: &mut LineBuffer, chal: &[u8; 32], count: u32, token: &[u8; 32])
    requires { length line.old ≤ 64 }
    ensures text { line.new ≡ with_pieces line.old (request_pieces chal.now count token.now) }
    ensures len { length line.new ≤ length line.old + 157 }
{
    line.add_digits(chal);
    line.add_decimal(u64::from(count));
    line.add_text(b"token");
    line.add_digits(token);
}

/// Puts `request H64 n token H64`.
pub fn print_request<W: Sink>(
    chal: &[u8; 32],
    count: u32,
    token: &[u8; 32],
    sink: &mut W,
) -> Result<(), Failed>
    ensures puts { Puts W.stands sink.old sink.new (request_line chal.now count token.now) result }
    ensures counts { CountsFaults W.faults sink.old sink.new result }
{
    let mut line = LineBuffer::new();
    line.push(b"request");
    add_request(&mut line, chal, count, token);
    line.push(b"\n");
    put_all(sink, line.as_slice())
}
