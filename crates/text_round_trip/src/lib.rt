//! Texts that are read back: a source that is written or listed is read by the assembler as what
//! was written, and the text of a play is a report file, which is read as the play's reports.
//!
//! There is no code here but laws, over the definitions of these texts. A caller that needs a law
//! calls its function.
#![tactic(auto)]

mod example;
mod listing;
mod numeral;
mod play_text;
mod statement;

pub use example::move_is_written;
pub use listing::{listed_items_are_read_back, plain_items_assemble_to_their_bytes};
pub use numeral::{decimals_are_numerals, hexadecimals_are_numerals};
pub use play_text::play_text_reads_back;
pub use statement::{written_source_is_read_back, written_statement_is_read_back};
