ghost use Rattle.std.specs.Prelude.{◌≡◌, IsTrue, IfOk, OnOk, OnErr, IfSome, option_map};
ghost use Rattle.report_verifier.specs.{Judge.judge_of, Validity.are_valid_for, Policy.expectation};
ghost use Rattle.sha2.specs.Sha256.{sha256};
ghost use Rattle.desk_memory.specs.DeviceState.{is_new};
ghost use Rattle.text_scan.specs.Word.{words_of};
ghost use Rattle.report_text.specs.ReportFile.{report2_of};
ghost use Rattle.verifier_desk.specs.{DeviceReply.{answer_after, answer_to_ask, answer_to_give, is_new_give, new_answer, request_with, state_after}, DeskLine.line_in};

use crate::challenge::desk_challenge;
use crate::desk_line::OwnLine;
use desk_memory::{Answer, DeviceState};
use report_text::read_report2;
use report_verifier::{Expect, Policy, Verifier, verdict_of};
use std::alloc::{AllocError, Global};
use text_scan::{FaultKind, WordFault, Words};

/// The answer to a line of a device, and whether its number is new.
#[derive(Clone, Copy, Debug)]
pub struct DeviceAnswer {
    pub answer: Answer,
    pub is_new: bool,
}

/// The answer to a new line that asks, where this is what follows its number.
pub fn answer_to_ask(count: u32, rest: &[u8]) -> Answer
    ensures { result ≡ answer_to_ask count (words_of rest.now) }
{
    if Words::new(rest).end().is_err() {
        return Answer::Bad(FaultKind::Extra);
    }
    if count == u32::MAX {
        return Answer::Spent;
    }
    Answer::Requested(count + 1)
}

/// The answer to a new line that gives a report.
pub fn answer_to_give(
    alloc: Global,
    verifier: &Verifier<'_>,
    outstanding: Option<u32>,
    rest: &[u8],
) -> Result<Answer, AllocError>
    ensures { IfOk result (λ answer. answer
        ≡ answer_to_give (judge_of sha256 verifier.now) outstanding
        (report2_of (words_of rest.now))) }
{
    let report = match read_report2(alloc, rest) {
        Ok(report) => report,
        Err(WordFault::Kind(kind)) => return Ok(Answer::Bad(kind)),
        Err(WordFault::Memory(error)) => return Err(error),
    };
    let expect = expectation(verifier.key, verifier.policy, outstanding);
    let verdict = verdict_of(
        verifier.key,
        verifier.image,
        expect.as_ref(),
        &report.view(),
    );
    Ok(Answer::Judged(verdict))
}

// What a report shall name.
fn expectation(key: &[u8; 64], policy: &Policy, outstanding: Option<u32>) -> Option<Expect>
    ensures expectation { result
        ≡ expectation policy.now (option_map (request_with sha256 key.now) outstanding) }
    ensures valid { IfSome result (λ expect.
        IsTrue (are_valid_for expect.version expect.bounds)) }
{
    let count = outstanding?;
    Some(Expect {
        version: policy.version(),
        chal: desk_challenge(key, count),
        count,
        bounds: policy.bounds(),
        flag: policy.flag(),
    })
}

// The answer to a line with a new number.
fn new_answer(
    alloc: Global,
    verifier: &Verifier<'_>,
    state: &DeviceState,
    own: &OwnLine<'_>,
) -> Result<Answer, AllocError>
    ensures answer { IfOk result (λ answer. answer
        ≡ new_answer (judge_of sha256 verifier.now) state.now (line_in own.now)) }
    ensures memory { OnErr result (IsTrue own.now.is_give) }
{
    if own.is_give {
        return answer_to_give(alloc, verifier, state.outstanding, own.rest);
    }
    Ok(answer_to_ask(state.count, own.rest))
}

/// Answers a line of a device, and keeps the answer to a new number. Out of memory leaves the
/// state as it was.
pub fn answer_device(
    alloc: Global,
    verifier: &Verifier<'_>,
    state: &mut DeviceState,
    own: &OwnLine<'_>,
) -> Result<DeviceAnswer, AllocError>
    ensures answer { IfOk result (λ outcome. outcome.answer
        ≡ answer_after (judge_of sha256 verifier.now) state.old (line_in own.now)) }
    ensures new { IfOk result (λ outcome. outcome.is_new
        ≡ is_new own.now.number state.old.last) }
    ensures state { OnOk result (state.new
        ≡ state_after (judge_of sha256 verifier.now) state.old (line_in own.now)) }
    ensures kept { OnErr result (state.new ≡ state.old) }
    ensures memory { OnErr result (IsTrue (is_new_give state.old.last (line_in own.now))) }
{
    if let Some(answer) = state.earlier_answer(own.number) {
        return Ok(DeviceAnswer {
            answer,
            is_new: false,
        });
    }
    let answer = new_answer(alloc, verifier, state, own)?;
    state.keep(own.number, answer);
    Ok(DeviceAnswer {
        answer,
        is_new: true,
    })
}
