ghost use Rattle.device_cli.specs.{Load.load_text, TextSummary.IsSummaryOf};

use crate::ending::Ending;
use crate::load::line_tally::LineCounts;
use crate::load::text_summary::TextSummary;
use crate::load::work_line::print_work_line;
use crate::load::{LOAD_STEPS, Load, load_of};
use crate::power::Power;
use crate::task::Task;
use device_play::{LineWatcher, PutFault, play_before};
use input_files::Refusal;
use outside_edge::{Shelf, Sink};
use std::alloc::{AllocError, Global};
use text_scan::decimal;

// The greatest seed.
const MOST_SEED: u64 = 4_294_967_295;

/// The command `work SEED`: the seed of a load.
#[derive(Clone, Copy, Debug)]
pub struct Work {
    pub seed: u64,
}

impl<'a> Task<'a> for Work {
    ghost use Rattle.device_cli.specs.{Play.plain_of, Work.{load_play, work_line, work_row, work_row_of}};

    type Values = Load;

    type Prepared = (LineCounts, [u8; 32]);

    ghost row_of = { work_row_of };

    ghost command_row = { λ work. work_row work.seed };

    ghost outcome = { λ work load. plain_of (load_play load.seed) (work_line load.seed) };

    ghost is_prepared = { λ work load summary. IsSummaryOf (load_text load.seed) summary };

    ghost once_put = { λ outcome. Unit {0} };

    /// SEED is a decimal in 0..4,294,967,295.
    fn from_arguments(arguments: &'a [String]) -> Option<Work> {
        let [seed] = arguments else {
            return None;
        };
        let seed = decimal(seed.as_bytes(), 0, MOST_SEED).ok()?;
        Some(Work { seed })
    }

    // It reads no file. What it goes on with is drawn.
    fn read<S: Shelf>(&self, alloc: Global, _shelf: &mut S) -> Result<Load, Refusal> {
        load_of(alloc, self.seed).map_err(|_| Refusal::Memory)
    }

    // The load is played before the first byte. What is kept of its text are the counts of its
    // lines, and its SHA-256.
    fn prepare<P: Power>(
        &self,
        alloc: Global,
        load: &Load,
    ) -> Result<(LineCounts, [u8; 32]), AllocError> {
        let device = P::power_on(alloc, &load.key, &load.image)?;
        let mut summary = TextSummary::new();
        match play_before(device, &load.script, LOAD_STEPS, &LineWatcher, &mut summary) {
            Ok(_) => Ok(summary.finish()),
            Err(_) => unreachable!(),
        }
    }

    fn put<W: Sink>(
        &self,
        _alloc: Global,
        load: &Load,
        summary: (LineCounts, [u8; 32]),
        sink: &mut W,
    ) -> Result<Ending, PutFault> {
        let (counts, digest) = summary;
        print_work_line(load.seed, counts, &digest, sink)?;
        Ok(Ending::Done)
    }
}
