ghost use Rattle.std.{specs.{Prelude.{◌≡◌, IsTrue, option_map}, Option.ForSome}, proofs.Common.rules};
ghost use Rattle.sha2.specs.Sha256.{sha256};
ghost use Rattle.device_types.specs.Report.{fields_of};
ghost use Rattle.mem_map.specs.Image.{byte_in};
ghost use Rattle.report_verifier.specs.{Validity.are_valid_for, Verdict.{verdict_names, lacks_exec, lacks_aux, verdict_on, verdict}};

use crate::expect::Expect;
use crate::expected_mac::expected_mac;
use crate::flag_kind::FlagKind;
use device_types::ReportView;
use hmac_core::{Digest32, Sha256Digest, same_bytes};
use mem_map::Image;
use named_value::Named;

/// The verdict on a report.
#[derive(Clone, Copy, Debug, PartialEq, Eq)]
pub enum Verdict {
    /// The report is what the policy and the image make of this challenge.
    Accept,
    /// No challenge is left: the report answers none.
    NoChallenge,
    /// It is of another version than the policy.
    VersionDiffers,
    /// It answers another challenge.
    ChalDiffers,
    /// It answers a request with another counter.
    CountDiffers,
    /// It is of another code or output region.
    BoundsDiffer,
    /// EXEC is asked for and is 0: the code did not run whole, or code, metadata or output were
    /// touched.
    ExecZero,
    /// The second flag is asked for and is 0.
    AuxZero,
    /// It was not made by this device's key over this code and output.
    MacDiffers,
}

impl Named for Verdict {
    ghost names = { verdict_names };

    fn values() -> &'static [Verdict] {
        &[
            Verdict::Accept,
            Verdict::NoChallenge,
            Verdict::VersionDiffers,
            Verdict::ChalDiffers,
            Verdict::CountDiffers,
            Verdict::BoundsDiffer,
            Verdict::ExecZero,
            Verdict::AuxZero,
            Verdict::MacDiffers,
        ]
    }

    fn name(self) -> &'static str {
        match self {
            Verdict::Accept => "accept",
            Verdict::NoChallenge => "no-challenge",
            Verdict::VersionDiffers => "version-differs",
            Verdict::ChalDiffers => "chal-differs",
            Verdict::CountDiffers => "count-differs",
            Verdict::BoundsDiffer => "bounds-differ",
            Verdict::ExecZero => "exec-zero",
            Verdict::AuxZero => "aux-zero",
            Verdict::MacDiffers => "mac-differs",
        }
    }

    ghost apart = { Prim.search rules };

    ghost words = { Prim.search rules };
}

fn verdict_under<D: Digest32>(
    key: &[u8; 64],
    image: &Image,
    expect: &Expect,
    report: &ReportView<'_>,
) -> Verdict
    requires { IsTrue (are_valid_for expect.now.version expect.now.bounds) }
    ensures { result
        ≡ verdict_on D.hash.digest_of key.now (byte_in image.now) expect.now
        (fields_of report.now) }
{
    if expect.version != report.version {
        return Verdict::VersionDiffers;
    }
    if !same_bytes(&expect.chal, &report.chal) {
        return Verdict::ChalDiffers;
    }
    if expect.count != report.count {
        return Verdict::CountDiffers;
    }
    if expect.bounds != report.bounds {
        return Verdict::BoundsDiffer;
    }
    if lacks_exec(expect.flag, report.exec) {
        return Verdict::ExecZero;
    }
    if lacks_aux(expect.flag, report.aux) {
        return Verdict::AuxZero;
    }
    let mac = expected_mac::<D>(key, image, expect, report);
    if !same_bytes(&mac, &report.mac) {
        return Verdict::MacDiffers;
    }
    Verdict::Accept
}

// Whether EXEC is asked for, and is 0.
fn lacks_exec(flag: FlagKind, exec: bool) -> bool
    ensures { result ≡ lacks_exec flag exec }
{
    flag == FlagKind::Exec && !exec
}

// Whether the second flag is asked for, and is 0.
fn lacks_aux(flag: FlagKind, aux: bool) -> bool
    ensures { result ≡ lacks_aux flag aux }
{
    flag == FlagKind::Aux && !aux
}

/// The first verdict that holds of a report, where this is expected of it, by MACs over any digest.
pub fn verdict_by<D: Digest32>(
    key: &[u8; 64],
    image: &Image,
    expect: Option<&Expect>,
    report: &ReportView<'_>,
) -> Verdict
    requires { ForSome expect (λ expect.
        IsTrue (are_valid_for expect.now.version expect.now.bounds)) }
    ensures { result
        ≡ verdict D.hash.digest_of key.now (byte_in image.now)
        (option_map (λ expect. expect.now) expect.entry) (fields_of report.now) }
{
    match expect {
        None => Verdict::NoChallenge,
        Some(expect) => verdict_under::<D>(key, image, expect, report),
    }
}

/// The first verdict that holds of a report, where this is expected of it.
pub fn verdict_of(
    key: &[u8; 64],
    image: &Image,
    expect: Option<&Expect>,
    report: &ReportView<'_>,
) -> Verdict
    requires { ForSome expect (λ expect.
        IsTrue (are_valid_for expect.now.version expect.now.bounds)) }
    ensures { result
        ≡ verdict sha256 key.now (byte_in image.now)
        (option_map (λ expect. expect.now) expect.entry) (fields_of report.now) }
{
    verdict_by::<Sha256Digest>(key, image, expect, report)
}
