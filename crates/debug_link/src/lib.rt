//! The packets of GDB's remote serial protocol: a debugger's bytes from a source, and what is put
//! for them into a sink.
//!
//! [`serve`] finds the packets among the bytes that come, and has each answered by an [`Answerer`],
//! who puts packets by a [`PacketWriter`], and text for a debugger's console by a [`ConsoleText`].
//! What is put is a function of the bytes alone, from where the answerer's session stands.
#![tactic(auto)]

mod answer_fault;
mod answerer;
mod check_digits;
mod connection;
mod console_text;
mod held_body;
mod packet_reader;
mod packet_responder;
mod packet_writer;
mod serving;
mod talk_end;

pub use answer_fault::AnswerFault;
pub use answerer::Answerer;
pub use connection::Connection;
pub use console_text::{ConsoleText, put_text};
pub use held_body::LONGEST_BODY;
pub use packet_writer::PacketWriter;
pub use serving::serve;
pub use talk_end::TalkEnd;
