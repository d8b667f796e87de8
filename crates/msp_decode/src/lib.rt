//! Instruction words of the 16-bit processor: reading them and writing them.
//!
//! The words are those of the MSP430x1xx Family User's Guide (SLAU049, the chapter on the 16-bit
//! RISC CPU); which words are illegal is this project's own choice. A word and a head, which is an
//! instruction without its extension words, are related by one definition, `Spells` of `specs/`: it
//! gives each field of the word by a table. [`decode`] finds the head of a word, [`complete`] adds
//! its extension words, and [`encode`] writes the words of an instruction. Each gives back what the
//! other read.
#![tactic(auto)]

mod completion;
mod cond;
mod constant;
mod decoding;
mod dest;
mod dest_form;
mod encode_fault;
mod encoding;
mod field;
mod following_words;
mod head;
mod instr;
mod law;
mod one;
mod reg;
mod source;
mod source_form;
mod value_numbered;
mod words;

pub use completion::{complete, extensions};
pub use cond::Cond;
pub use constant::Gen;
pub use decoding::decode;
pub use dest::Dest;
pub use dest_form::DestForm;
pub use encode_fault::EncodeFault;
pub use encoding::encode;
pub use head::Head;
pub use instr::Instr;
pub use law::{heads_are_spelled, illegal_words_spell_nothing, words_are_read, words_are_written};
pub use one::One;
pub use reg::Reg;
pub use source::Source;
pub use source_form::SourceForm;
pub use words::Words;
