ghost use Rattle.text_scan.specs.Reader.{ReadsWordOn};
ghost use Rattle.report_text.specs.ReportLine.{bytes_of, field_of};

use crate::report_entry::{read_count, read_flag};
use device_types::Rule;
use report_verifier::Verdict;
use std::alloc::Global;
use text_scan::{Bytes, WordFault, Words};

/// What stands in a line that is passed over.
#[derive(Clone, Copy)]
pub enum Field {
    /// The number of a step, of steps or of a report.
    Count,
    Byte,
    Rule,
    /// The decision of a call that does not attest.
    Denial,
    Verdict,
    /// Two digits a byte, of any number of bytes.
    Bytes,
    /// `pc` and an address.
    Pc,
    /// `exec` and the flag.
    Exec,
}

impl Field {
    /// Passes its words, in their form.
    pub fn pass(self, alloc: Global, words: &mut Words<'_>) -> Result<(), WordFault>
        ensures { ReadsWordOn result words.new (field_of self words.old) }
    {
        match self {
            Field::Count => {
                read_count(words)?;
            }
            Field::Byte => {
                words.block::<1>()?;
            }
            Field::Rule => {
                words.value::<Rule>()?;
            }
            Field::Denial => {
                words.number(2, 3)?;
            }
            Field::Verdict => {
                words.value::<Verdict>()?;
            }
            Field::Bytes => {
                read_bytes(alloc, words)?;
            }
            Field::Pc => {
                words.keyword(b"pc")?;
                words.place()?;
            }
            Field::Exec => {
                read_flag(b"exec", words)?;
            }
        }
        Ok(())
    }
}

#[tactic(auto, unfolding(crate::specs::ReportLine::bytes_of))]
fn read_bytes(alloc: Global, words: &mut Words<'_>) -> Result<Bytes, WordFault>
    ensures { ReadsWordOn result words.new (bytes_of words.old) }
{
    Bytes::from_hex(alloc, words.word()?)
}
