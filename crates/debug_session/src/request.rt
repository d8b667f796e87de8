ghost use Rattle.std.specs.Prelude.{◌≡◌, ◌≤◌, length};
ghost use Rattle.debug_session.specs.Request.{number_request, plain_request, request_in, request_of};
ghost use Rattle.text_scan.specs.Word.{words_of};

use text_scan::{Words, decimal};

/// The most steps of a play.
pub const MOST_STEPS: u64 = 10_000_000;

// The most lines of a trace at once.
const MOST_LINES: u64 = 1_000;

// Room for the text of a body of 4,096 digits.
const ROOM: usize = 2_048;

/// What the user asks for by `monitor`.
#[derive(Clone, Copy, Debug, PartialEq, Eq)]
pub enum Request {
    /// How many steps were made.
    Steps,
    Flags,
    /// What `play` prints.
    Play,
    /// The last so many lines of the trace.
    Trace(u64),
    /// To stop at so many steps, too; 0 takes it back.
    Until(u64),
    Help,
    Other,
}

/// The request of a text in hexadecimal digits.
#[tactic(auto, using(crate::proofs::Decoded::decoded))]
pub fn read_request(digits: &[u8]) -> Option<Request>
    requires { length digits.now ≤ 4096 }
    ensures { result ≡ request_in digits.now }
{
    let mut room = [0; ROOM];
    let text = &mut room[..digits.len() / 2];
    match hex::decode_to_slice(digits, text) {
        Ok(()) => Some(request_of(text)),
        Err(_) => None,
    }
}

fn request_of(text: &[u8]) -> Request
    ensures { result ≡ request_of (words_of text.now) }
{
    let mut words = Words::new(text);
    let Ok(name) = words.word() else {
        return Request::Other;
    };
    let Ok(number) = words.word() else {
        return plain_request(name);
    };
    match words.end() {
        Ok(()) => number_request(name, number),
        Err(_) => Request::Other,
    }
}

fn plain_request(name: &[u8]) -> Request
    ensures { result ≡ plain_request name.now }
{
    if name == b"steps".as_slice() {
        Request::Steps
    } else if name == b"flags".as_slice() {
        Request::Flags
    } else if name == b"play".as_slice() {
        Request::Play
    } else if name == b"help".as_slice() {
        Request::Help
    } else {
        Request::Other
    }
}

fn number_request(name: &[u8], number: &[u8]) -> Request
    ensures { result ≡ number_request name.now number.now }
{
    if name == b"trace".as_slice() {
        match decimal(number, 1, MOST_LINES) {
            Ok(lines) => Request::Trace(lines),
            Err(_) => Request::Other,
        }
    } else if name == b"until".as_slice() {
        match decimal(number, 0, MOST_STEPS) {
            Ok(steps) => Request::Until(steps),
            Err(_) => Request::Other,
        }
    } else {
        Request::Other
    }
}
