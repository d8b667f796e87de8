ghost use Rattle.std.specs.Prelude.{◌≤◌};
ghost use Rattle.device_play.specs.Limit.{most_steps};

use crate::command::all_word::split_all;
use crate::command::play_arguments::MOST_STEPS;
use crate::command::play_files::{PlayFiles, PlayValues};
use crate::command_end::CommandEnd;
use crate::ending::Ending;
use crate::power::{Power, PoweredDevice};
use crate::task::Task;
use crate::verdict::judging::Judging;
use crate::verdict::unanswered::end_verdicts;
use device_play::{PutFault, play_before};
use device_types::TraceFlag;
use execution_flags::AuxFlag;
use hmac_core::{Digest32, Sha256Digest};
use input_files::{File, Inputs, Policy, Refusal};
use outside_edge::{Shelf, Sink};
use report_verifier::Verifier;
use std::alloc::{AllocError, Global};
use text_scan::decimal;

/// The command `round [--all] IMAGE SCRIPT KEY POLICY STEPS`. The policy is read after the files of
/// the play.
#[derive(Clone, Copy, Debug)]
pub struct Round<'a> {
    /// All requests of the policy have to be answered.
    pub all: bool,
    pub play: PlayFiles<'a>,
    pub policy: File<'a, Policy>,
    pub steps: u64,
    ghost few: { steps ≤ most_steps },
}

/// The values of a play's files, and the policy.
#[derive(Drop)]
pub struct RoundValues {
    pub play: PlayValues,
    pub policy: report_verifier::Policy,
}

impl<'a> Round<'a> {
    ghost use Rattle.std.specs.Prelude.{◌≡◌, option_map};
    ghost use Rattle.input_files.specs.CommandLine.{texts};
    ghost use Rattle.device_cli.specs.Round.{round_row, round_row_with};

    // The command that the arguments spell, with the word `--all` or without it.
    fn with_all(all: bool, arguments: &'a [String]) -> Option<Round<'a>>
        ensures { option_map (λ round. round_row round.all round.play.image.name.now
            round.play.script.name.now round.play.key.name.now round.policy.name.now
            round.steps) result
            ≡ round_row_with all (texts arguments.now) }
    {
        let [image, script, key, policy, steps] = arguments else {
            return None;
        };
        let steps = decimal(steps.as_bytes(), 1, MOST_STEPS).ok()?;
        Some(Round {
            all,
            play: PlayFiles::new(image.as_str(), script.as_str(), key.as_str()),
            policy: File::new(policy.as_str(), Policy),
            steps,
        })
    }
}

impl<'a> Task<'a> for Round<'a> {
    ghost use Rattle.std.specs.Prelude.{[]};
    ghost use Rattle.mem_map.specs.Image.{byte_in};
    ghost use Rattle.device_core.specs.Device.{HeldStandsFor};
    ghost use Rattle.device_cli.specs.{Play.start_of, Round.{round_row, round_row_of, round_outcome}};

    type Values = RoundValues;

    type Prepared = PoweredDevice;

    ghost row_of = { round_row_of };

    ghost command_row = { λ round. round_row round.all round.play.image.name.now
        round.play.script.name.now round.play.key.name.now round.policy.name.now round.steps };

    ghost outcome = { λ round values. round_outcome round.all round.steps values.play.key
        (byte_in values.play.image) values.play.script values.policy };

    ghost is_prepared = { λ round values device. HeldStandsFor
        ⟦<Sha256Digest as Digest32>⟧.hash ⟦<AuxFlag as TraceFlag>⟧.flag device
        (start_of values.play.key (byte_in values.play.image)) [] };

    ghost once_put = { λ outcome. Unit {0} };

    /// STEPS is a decimal in 1..10,000,000.
    fn from_arguments(arguments: &'a [String]) -> Option<Round<'a>> {
        let (all, others) = split_all(arguments);
        Round::with_all(all, others)
    }

    fn read<S: Shelf>(&self, alloc: Global, shelf: &mut S) -> Result<RoundValues, Refusal> {
        let values = (self.play, self.policy).read::<CommandEnd, S>(alloc, shelf)?;
        let (play, policy) = values;
        Ok(RoundValues { play, policy })
    }

    fn prepare<P: Power>(
        &self,
        alloc: Global,
        values: &RoundValues,
    ) -> Result<PoweredDevice, AllocError> {
        P::power_on(alloc, &values.play.key, &values.play.image)
    }

    fn put<W: Sink>(
        &self,
        alloc: Global,
        values: &RoundValues,
        device: PoweredDevice,
        sink: &mut W,
    ) -> Result<Ending, PutFault> {
        let RoundValues { play, policy } = values;
        let verifier = Verifier {
            key: &play.key,
            image: &play.image,
            policy,
        };
        let judging = Judging {
            alloc,
            verifier: &verifier,
        };
        let (_, tally) = play_before(device, &play.script, self.steps, &judging, sink)?;
        Ok(end_verdicts(self.all, policy, &tally, sink)?)
    }
}
