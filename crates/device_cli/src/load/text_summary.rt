ghost use Rattle.std.specs.Prelude.{◌≡◌, [], ℕ, List};
ghost use Rattle.sha2.specs.Sha256.{sha256};

use crate::load::line_tally::{LineCounts, LineTally};
use outside_edge::{Failed, Sink};
use sha2::{Digest, Sha256};

/// A sink that keeps no text: it counts the lines, and computes the SHA-256. It never fails.
#[derive(Drop)]
pub struct TextSummary {
    tally: LineTally,
    hasher: Sha256,
}

impl TextSummary {
    ghost use Rattle.device_cli.specs.TextSummary.{SummaryStandsFor, counts_in, u64_counts};

    /// Of the empty text.
    pub fn new() -> TextSummary
        ensures { SummaryStandsFor result [] }
    {
        TextSummary {
            tally: LineTally::new(),
            hasher: Sha256::new(),
        }
    }

    /// The counts of the text's lines, in 64 bits, and its digest.
    pub fn finish(self) -> (LineCounts, [u8; 32])
        ensures { (text : List ℕ)
            → SummaryStandsFor self text
            → (result.0 ≡ u64_counts (counts_in text)) × (result.1 ≡ sha256 text) }
    {
        (self.tally.counts(), self.hasher.finalize())
    }
}

impl Sink for TextSummary {
    ghost use Rattle.device_cli.specs.TextSummary.{SummaryStandsFor};

    ghost stands = { SummaryStandsFor };

    ghost faults = { λ summary. 0 };

    fn put(&mut self, piece: &[u8]) -> Result<usize, Failed> {
        for byte in piece {
            self.tally.take(*byte);
        }
        self.hasher.update(piece);
        Ok(piece.len())
    }
}
