ghost use Rattle.std.specs.Prelude.{◌≡◌};

use crate::policy::Policy;
use crate::verdict::{Verdict, verdict_by};
use device_types::ReportView;
use hmac_core::Digest32;
use mem_map::Image;

/// What reports are judged by: the device's key, the image that it shall run, and a policy.
#[derive(Clone, Copy)]
pub struct Verifier<'a> {
    pub key: &'a [u8; 64],
    pub image: &'a Image,
    pub policy: &'a Policy,
}

impl Verifier<'_> {
    ghost use Rattle.device_types.specs.Report.{fields_of};
    ghost use Rattle.report_verifier.specs.Judge.{verdict_at, judge_of};

    /// The verdict on a report, numbered from 0: it is expected to answer the request of its
    /// number.
    pub fn verdict<D: Digest32>(&self, i: usize, report: &ReportView<'_>) -> Verdict
        ensures { result ≡ verdict_at (judge_of D.hash.digest_of self.now) i
            (fields_of report.now) }
    {
        let expect = self.policy.expect(i);
        verdict_by::<D>(self.key, self.image, expect.as_ref(), report)
    }
}
