use crate::command::all_word::split_all;
use crate::command_end::CommandEnd;
use crate::ending::Ending;
use crate::kind::reports::Reports;
use crate::power::Power;
use crate::task::Task;
use crate::verdict::unanswered::end_verdicts;
use crate::verdict::verdict_text::print_verdicts;
use device_play::PutFault;
use hmac_core::Sha256Digest;
use input_files::{File, Image, Inputs, Key, Policy, Refusal};
use outside_edge::{Shelf, Sink};
use report_text::Report;
use report_verifier::Verifier;
use std::alloc::{AllocError, Global};

/// The command `verify [--all] IMAGE POLICY KEY REPORTS`. Its files are in the order in which they
/// are read.
#[derive(Clone, Copy, Debug)]
pub struct Verify<'a> {
    /// All requests of the policy have to be answered.
    pub all: bool,
    pub key: File<'a, Key>,
    pub image: File<'a, Image>,
    pub policy: File<'a, Policy>,
    pub reports: File<'a, Reports>,
}

/// What verdicts are made of: key and image of the device, policy and reports.
#[derive(Drop)]
pub struct VerifyValues {
    pub key: [u8; 64],
    pub image: mem_map::Image,
    pub policy: report_verifier::Policy,
    pub reports: Vec<Report>,
}

impl<'a> Task<'a> for Verify<'a> {
    ghost use Rattle.mem_map.specs.Image.{byte_in};
    ghost use Rattle.report_verifier.specs.Judge.{judge_with};
    ghost use Rattle.device_cli.specs.Verify.{verify_row, verify_row_of, verify_outcome};

    type Values = VerifyValues;

    type Prepared = ();

    ghost row_of = { verify_row_of };

    ghost command_row = { λ verify. verify_row verify.all verify.image.name.now
        verify.policy.name.now verify.key.name.now verify.reports.name.now };

    ghost outcome = { λ verify values. verify_outcome verify.all
        (judge_with values.key (byte_in values.image) values.policy) values.reports.items };

    ghost is_prepared = { λ task values prepared. Unit {0} };

    ghost once_put = { λ outcome. Unit {0} };

    fn from_arguments(arguments: &'a [String]) -> Option<Verify<'a>> {
        let (all, files) = split_all(arguments);
        let [image, policy, key, reports] = files else {
            return None;
        };
        Some(Verify {
            all,
            key: File::new(key.as_str(), Key),
            image: File::new(image.as_str(), Image),
            policy: File::new(policy.as_str(), Policy),
            reports: File::new(reports.as_str(), Reports),
        })
    }

    fn read<S: Shelf>(&self, alloc: Global, shelf: &mut S) -> Result<VerifyValues, Refusal> {
        let files = ((self.key, self.image), (self.policy, self.reports));
        let values = files.read::<CommandEnd, S>(alloc, shelf)?;
        let ((key, image), (policy, reports)) = values;
        Ok(VerifyValues {
            key,
            image,
            policy,
            reports,
        })
    }

    fn prepare<P: Power>(&self, _alloc: Global, _values: &VerifyValues) -> Result<(), AllocError> {
        Ok(())
    }

    fn put<W: Sink>(
        &self,
        _alloc: Global,
        values: &VerifyValues,
        _prepared: (),
        sink: &mut W,
    ) -> Result<Ending, PutFault> {
        let verifier = Verifier {
            key: &values.key,
            image: &values.image,
            policy: &values.policy,
        };
        let tally = print_verdicts::<Sha256Digest, W>(&verifier, &values.reports, sink)?;
        Ok(end_verdicts(self.all, &values.policy, &tally, sink)?)
    }
}
