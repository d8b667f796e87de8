ghost use Rattle.std.specs.Prelude.{◌≡◌};
ghost use Rattle.text_scan.specs.Reader.{ReadsOn};
ghost use Rattle.report_verifier.specs.PolicyGrammar.{version_line_of, executable_line_of, output_line_of, flag_named, flag_line_of, request_line_of, challenge_line_of, line_by_keyword, kind_for};

use crate::asked::Asked;
use crate::flag_kind::FlagKind;
use device_types::Version;
use text_scan::{FaultKind, Words};

/// What a line of a policy says.
#[derive(Clone, Copy, Debug, PartialEq, Eq)]
pub enum PolicyLine {
    /// The policy is of version 2.
    VersionTwo,
    /// The first and the last word of the executable region.
    Executable(u16, u16),
    /// The first and the last word of the output region.
    Output(u16, u16),
    /// Which flag is asked for.
    Flag(FlagKind),
    /// A request that was sent.
    Request(Asked),
    /// A challenge that was sent alone, as in version 1.
    Challenge([u8; 32]),
}

/// What a line behind its keyword says in a policy of that version, or its first fault.
pub fn read_kind(
    version: Version,
    keyword: &[u8],
    words: &mut Words<'_>,
) -> Result<PolicyLine, FaultKind>
    ensures { ReadsOn result words.new (kind_for version keyword.now words.old) }
{
    match version {
        Version::One => read_one(keyword, words),
        Version::Two => read_two(keyword, words),
    }
}

// The keywords of version 1.
fn read_one(keyword: &[u8], words: &mut Words<'_>) -> Result<PolicyLine, FaultKind>
    ensures { ReadsOn result words.new (line_by_keyword keyword.now words.old) }
{
    match keyword {
        b"er" => read_executable(words),
        b"or" => read_output(words),
        b"chal" => read_challenge(words),
        _ => Err(FaultKind::Word),
    }
}

// In version 2 there are three more.
fn read_two(keyword: &[u8], words: &mut Words<'_>) -> Result<PolicyLine, FaultKind>
    ensures { ReadsOn result words.new (kind_for Version.Two keyword.now words.old) }
{
    if keyword == b"version".as_slice() {
        return read_version(words);
    }
    if keyword == b"flag".as_slice() {
        return read_flag(words);
    }
    if keyword == b"ask".as_slice() {
        return read_request(words);
    }
    read_one(keyword, words)
}

#[tactic(auto, unfolding(crate::specs::PolicyGrammar::version_line_of))]
fn read_version(words: &mut Words<'_>) -> Result<PolicyLine, FaultKind>
    ensures { ReadsOn result words.new (version_line_of words.old) }
{
    words.number(2, 2)?;
    Ok(PolicyLine::VersionTwo)
}

#[tactic(auto, unfolding(crate::specs::PolicyGrammar::executable_line_of))]
fn read_executable(words: &mut Words<'_>) -> Result<PolicyLine, FaultKind>
    ensures { ReadsOn result words.new (executable_line_of words.old) }
{
    let (first, last) = words.ends()?;
    Ok(PolicyLine::Executable(first, last))
}

#[tactic(auto, unfolding(crate::specs::PolicyGrammar::output_line_of))]
fn read_output(words: &mut Words<'_>) -> Result<PolicyLine, FaultKind>
    ensures { ReadsOn result words.new (output_line_of words.old) }
{
    let (first, last) = words.ends()?;
    Ok(PolicyLine::Output(first, last))
}

#[tactic(auto, unfolding(crate::specs::PolicyGrammar::flag_line_of))]
fn read_flag(words: &mut Words<'_>) -> Result<PolicyLine, FaultKind>
    ensures { ReadsOn result words.new (flag_line_of words.old) }
{
    Ok(PolicyLine::Flag(flag_named(words.word()?)?))
}

fn flag_named(word: &[u8]) -> Result<FlagKind, FaultKind>
    ensures { result ≡ flag_named word.now }
{
    match word {
        b"exec" => Ok(FlagKind::Exec),
        b"aux" => Ok(FlagKind::Aux),
        b"plain" => Ok(FlagKind::Plain),
        _ => Err(FaultKind::Word),
    }
}

#[tactic(auto, unfolding(crate::specs::PolicyGrammar::request_line_of))]
fn read_request(words: &mut Words<'_>) -> Result<PolicyLine, FaultKind>
    ensures { ReadsOn result words.new (request_line_of words.old) }
{
    let chal = words.block::<32>()?;
    let count = words.number(1, 4_294_967_295)?;
    Ok(PolicyLine::Request(Asked {
        chal,
        count: count as u32,
    }))
}

#[tactic(auto, unfolding(crate::specs::PolicyGrammar::challenge_line_of))]
fn read_challenge(words: &mut Words<'_>) -> Result<PolicyLine, FaultKind>
    ensures { ReadsOn result words.new (challenge_line_of words.old) }
{
    Ok(PolicyLine::Challenge(words.block::<32>()?))
}
