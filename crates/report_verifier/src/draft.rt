ghost use Rattle.std.specs.Prelude.{◌≡◌, IsTrue};
ghost use Rattle.text_scan.specs.{LineFold.{TakesLine, Takes}, Word.words_of};
ghost use Rattle.report_verifier.specs.declared.policy_line.PolicyLine.TheVariants as lines;
ghost use Rattle.report_verifier.specs.{PolicyGrammar.{policy_line_of, version_after, draft_with, draft_after, draft_with_line}, Validity.are_valid_for};

use crate::asked::Asked;
use crate::flag_kind::FlagKind;
use crate::policy::Policy;
use crate::policy_line::{PolicyLine, read_kind};
use crate::validity::valid_for;
use device_types::{Bounds, Version};
use std::alloc::Global;
use std::mem;
use text_scan::{FaultKind, LineReader, WordFault, Words};

/// What the lines of a policy have said so far.
#[derive(Debug, Drop)]
pub enum Draft {
    Empty,
    /// The policy is of version 2.
    VersionKnown,
    /// The version, and the first and the last word of the executable region.
    ExecutableKnown(Version, u16, u16),
    /// A policy of version 2 whose flag is to come.
    BoundsKnown(Policy),
    /// Bounds and flag, and the requests up to here.
    Whole(Policy),
}

impl<'a> LineReader<'a> for Draft {
    ghost with_line = { draft_with_line };

    #[tactic(auto, unfolding(crate::specs::PolicyGrammar::draft_with_line))]
    fn take(&mut self, alloc: Global, line: &'a [u8]) -> Result<(), WordFault> {
        let entry = read_policy_line(self, line)?;
        add_entry(alloc, self, entry)
    }
}

// What a line says after the earlier ones, or its first fault.
#[tactic(auto, unfolding(crate::specs::PolicyGrammar::policy_line_of))]
fn read_policy_line(draft: &Draft, line: &[u8]) -> Result<PolicyLine, FaultKind>
    ensures { result ≡ policy_line_of draft.now (words_of line.now) }
{
    let mut words = Words::new(line);
    let keyword = words.word()?;
    let entry = read_kind(version_after(draft, keyword), keyword, &mut words)?;
    words.end()?;
    Ok(entry)
}

// The version of a policy that goes on with this keyword.
fn version_after(draft: &Draft, keyword: &[u8]) -> Version
    ensures { result ≡ version_after draft.now keyword.now }
{
    match draft {
        Draft::Empty => first_version(keyword),
        Draft::VersionKnown | Draft::BoundsKnown(_) => Version::Two,
        Draft::ExecutableKnown(version, _, _) => *version,
        Draft::Whole(policy) => policy.version(),
    }
}

fn first_version(keyword: &[u8]) -> Version
    ensures { result ≡ version_after Draft.Empty keyword.now }
{
    if keyword == b"version".as_slice() {
        Version::Two
    } else {
        Version::One
    }
}

// Takes what a further line says.
fn add_entry(alloc: Global, draft: &mut Draft, entry: PolicyLine) -> Result<(), WordFault>
    ensures { TakesLine result draft.new (draft_after draft.old entry) }
{
    match entry {
        PolicyLine::VersionTwo => add_version(draft)?,
        PolicyLine::Executable(er_min, er_max) => add_executable(draft, er_min, er_max)?,
        PolicyLine::Output(or_min, or_max) => add_output(alloc, draft, or_min, or_max)?,
        PolicyLine::Flag(flag) => add_flag(draft, flag)?,
        PolicyLine::Request(asked) => return add_request(draft, asked),
        PolicyLine::Challenge(chal) => return add_challenge(draft, chal),
    }
    Ok(())
}

fn add_version(draft: &mut Draft) -> Result<(), FaultKind>
    ensures { Takes result draft.new (draft_after draft.old lines.VersionTwo) }
{
    if !matches!(draft, Draft::Empty) {
        return Err(FaultKind::Order);
    }
    *draft = Draft::VersionKnown;
    Ok(())
}

fn add_executable(draft: &mut Draft, er_min: u16, er_max: u16) -> Result<(), FaultKind>
    ensures { Takes result draft.new (draft_after draft.old (lines.Executable er_min er_max)) }
{
    let version = match draft {
        Draft::Empty => Version::One,
        Draft::VersionKnown => Version::Two,
        _ => return Err(FaultKind::Order),
    };
    *draft = Draft::ExecutableKnown(version, er_min, er_max);
    Ok(())
}

fn add_output(alloc: Global, draft: &mut Draft, or_min: u16, or_max: u16) -> Result<(), FaultKind>
    ensures { Takes result draft.new (draft_after draft.old (lines.Output or_min or_max)) }
{
    let Draft::ExecutableKnown(version, er_min, er_max) = *draft else {
        return Err(FaultKind::Order);
    };
    let bounds = Bounds {
        er_min,
        er_max,
        or_min,
        or_max,
    };
    if !valid_for(version, &bounds) {
        return Err(FaultKind::Bounds);
    }
    *draft = draft_with(alloc, version, bounds);
    Ok(())
}

// What is known with the bounds: in version 1 the policy, in version 2 all but its flag.
fn draft_with(alloc: Global, version: Version, bounds: Bounds) -> Draft
    requires { IsTrue (are_valid_for version bounds) }
    ensures { result ≡ draft_with version bounds }
{
    match version {
        Version::One => Draft::Whole(Policy::new(alloc, version, bounds, FlagKind::Exec)),
        Version::Two => Draft::BoundsKnown(Policy::new(alloc, version, bounds, FlagKind::Plain)),
    }
}

fn add_flag(draft: &mut Draft, flag: FlagKind) -> Result<(), FaultKind>
    ensures { Takes result draft.new (draft_after draft.old (lines.Flag flag)) }
{
    if !matches!(draft, Draft::BoundsKnown(_)) {
        return Err(FaultKind::Order);
    }
    if let Draft::BoundsKnown(policy) = mem::replace(draft, Draft::Empty) {
        *draft = Draft::Whole(policy.with_flag(flag));
    }
    Ok(())
}

fn add_request(draft: &mut Draft, asked: Asked) -> Result<(), WordFault>
    ensures { TakesLine result draft.new (draft_after draft.old (lines.Request asked)) }
{
    let Draft::Whole(policy) = draft else {
        return Err(WordFault::Kind(FaultKind::Order));
    };
    if policy.has_request(&asked) {
        return Err(WordFault::Kind(FaultKind::Twice));
    }
    match policy.add(asked) {
        Ok(()) => Ok(()),
        Err(error) => Err(WordFault::Memory(error)),
    }
}

fn add_challenge(draft: &mut Draft, chal: [u8; 32]) -> Result<(), WordFault>
    ensures { TakesLine result draft.new (draft_after draft.old (lines.Challenge chal)) }
{
    let Draft::Whole(policy) = draft else {
        return Err(WordFault::Kind(FaultKind::Order));
    };
    if policy.version() == Version::Two {
        return Err(WordFault::Kind(FaultKind::Order));
    }
    match policy.add(Asked { chal, count: 0 }) {
        Ok(()) => Ok(()),
        Err(error) => Err(WordFault::Memory(error)),
    }
}
