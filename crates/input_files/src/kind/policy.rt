use crate::bad_file::BadFile;
use crate::kind::Kind;
use report_verifier::read_policy;
use std::alloc::Global;
use text_scan::{FaultAt, TextFault};

/// The most bytes of a policy.
pub const POLICY_LIMIT: usize = 65_536;

/// What reports are expected to name: regions, a flag and requests.
#[derive(Clone, Copy, Debug)]
pub struct Policy;

impl Kind for Policy {
    ghost use Rattle.report_verifier.specs.Policy.{PolicyFields};
    ghost use Rattle.input_files.specs.FileKind.{policy_kind};

    type Value = report_verifier::Policy;

    ghost Meaning = { PolicyFields };

    ghost meaning = { λ policy. policy };

    ghost kind = { policy_kind };

    fn limit() -> usize {
        POLICY_LIMIT
    }

    fn parse(alloc: Global, bytes: Vec<u8>) -> Result<report_verifier::Policy, TextFault> {
        read_policy(alloc, &bytes)
    }

    fn refusal(fault: FaultAt) -> BadFile {
        BadFile::Policy(fault)
    }
}
