use crate::cond::Cond;
use crate::dest_form::DestForm;
use crate::one::One;
use crate::source_form::SourceForm;
use word_arith::{Op2, Size};

/// An instruction without its extension words: what its first word says.
#[derive(Clone, Copy, Debug, PartialEq, Eq)]
pub enum Head {
    Two(Op2, Size, SourceForm, DestForm),
    One(One, Size, SourceForm),
    Reti,
    /// A jump by a number of words from the word after it.
    Jump(Cond, i16),
}
