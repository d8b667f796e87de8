//! Assembler source of the MSP430: statements and their parts, read from text.
//!
//! A line has an optional label, an optional statement and an optional comment. It is cut into
//! tokens, each the longest at its place, and a statement is an operation with operands between
//! commas. The instructions are those of the MSP430x1xx Family User's Guide (SLAU049, the chapter
//! on the 16-bit RISC CPU) with the operands that they take. The contract of [`parse`] is the
//! statements of the text, one for each line, or its first fault; laws say the same of the lines as
//! a whole. What a name or an expression is worth is no matter of this crate: names are parts of
//! the text.
#![tactic(auto)]

mod body;
mod characters;
mod directive;
mod emulated;
mod expr;
mod expr_reader;
mod exprs;
mod form;
mod instruction;
mod law;
mod line_piece;
mod mnemonic;
mod mnemonic_word;
mod name_table;
mod number_word;
mod operand;
mod operand_form;
mod operand_reader;
mod operands;
mod operation;
mod operation_word;
mod parts;
mod piece;
mod register_word;
mod source;
mod source_reader;
mod statement;
mod statement_reader;
mod term;
mod token;
mod tokens;
mod word_piece;

pub use body::Body;
pub use characters::Characters;
pub use emulated::Emulated;
pub use expr::Expr;
pub use exprs::Exprs;
pub use form::{DestRole, Form, SourceRole};
pub use law::{fault_is_of_the_first_faulty_line, statements_are_of_the_lines};
pub use mnemonic::Mnemonic;
pub use mnemonic_word::{jump_name, one_name, op2_name};
pub use operand::Operand;
pub use register_word::reg_name;
pub use source::Source;
pub use source_reader::parse;
pub use statement::Statement;
pub use term::Term;
