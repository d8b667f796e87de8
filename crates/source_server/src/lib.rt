//! A server over a source: whatever answers bytes as they come, or lines, serves a source to its
//! end, up to a limit, or until it stops.
//!
//! A [`Responder`] says what it stands for behind the bytes so far, and why it stops. [`serve`]
//! takes bytes for it, piece by piece: none behind the end of the source, and none behind the piece
//! within which it stopped. [`Lines`] is a responder that cuts the bytes into lines, and has each
//! answered by a [`LineResponder`] as soon as it is whole; what is due to the lines of a piece may
//! be held back until the end of the piece.
#![tactic(auto)]

mod halt;
mod held_line;
mod law;
mod line_responder;
mod lines;
mod responder;
mod served;
mod serving;

pub use halt::Halt;
pub use held_line::{HeldLine, LONGEST_LINE};
pub use law::{bytes_are_cut_anywhere, line_is_held_whole, plain_piece_lengthens_line};
pub use line_responder::LineResponder;
pub use lines::Lines;
pub use responder::Responder;
pub use served::Served;
pub use serving::{MOST_INPUT, serve};
