use device_types::Version;
use input_files::{BadFile, Kind, POLICY_LIMIT};
use report_verifier::{Policy, read_policy};
use std::alloc::Global;
use text_scan::{FaultAt, FaultKind, TextFault};

/// The policy of a desk, which is of version 2. Its requests are not used.
#[derive(Clone, Copy, Debug)]
pub struct DeskPolicy;

impl Kind for DeskPolicy {
    ghost use Rattle.report_verifier.specs.Policy.{PolicyFields};
    ghost use Rattle.desk_cli.specs.FileKind.{desk_policy_kind};

    type Value = Policy;

    ghost Meaning = { PolicyFields };

    ghost meaning = { λ policy. policy };

    ghost kind = { desk_policy_kind };

    fn limit() -> usize {
        POLICY_LIMIT
    }

    /// One of version 1 that has no other fault is `Word` at line 0.
    fn parse(alloc: Global, bytes: Vec<u8>) -> Result<Policy, TextFault> {
        let policy = read_policy(alloc, &bytes)?;
        match policy.version() {
            Version::One => Err(TextFault::At(FaultAt {
                line: 0,
                kind: FaultKind::Word,
            })),
            Version::Two => Ok(policy),
        }
    }

    fn refusal(fault: FaultAt) -> BadFile {
        BadFile::Policy(fault)
    }
}
