ghost use Rattle.std.specs.Prelude.{◌≡◌};
ghost use Rattle.device_cli.specs.Verdicts.{is_accept};

use report_verifier::{Policy, Verdict};

/// The verdicts so far: how many, and how many of them stand before the first that is not `accept`.
#[derive(Clone, Copy, Debug)]
pub struct Tally {
    pub verdicts: usize,
    pub leading_accepts: usize,
}

impl Tally {
    ghost use Rattle.std.specs.Prelude.{◌≡◌, ◌<◌, ◌^◌, [], IfSome, List};
    ghost use Rattle.report_verifier.specs.declared.verdict.Verdict.{Verdict};
    ghost use Rattle.device_cli.specs.{Verdicts.{Counts, tally_with, all_accept}, Unanswered.first_unanswered};

    pub fn new() -> Tally
        ensures { Counts [] result }
    {
        Tally {
            verdicts: 0,
            leading_accepts: 0,
        }
    }

    /// The same with one verdict more.
    pub fn with_verdict(self, decision: Verdict) -> Tally
        requires { self.verdicts < 2 ^ 63 }
        ensures { result ≡ tally_with self decision }
    {
        let leads = self.leading_accepts == self.verdicts && is_accept(decision);
        Tally {
            verdicts: self.verdicts + 1,
            leading_accepts: if leads {
                self.leading_accepts + 1
            } else {
                self.leading_accepts
            },
        }
    }

    pub fn all_accept(&self) -> bool
        ensures { (decisions : List Verdict) → Counts decisions self.now
            → result ≡ all_accept decisions }
    {
        self.leading_accepts == self.verdicts
    }

    /// The first request of a policy, from 0, whose report is absent or not accepted.
    pub fn first_unanswered(&self, policy: &Policy) -> Option<usize>
        ensures first { (decisions : List Verdict) → Counts decisions self.now
            → result ≡ first_unanswered policy.now.requests decisions }
        ensures place { IfSome result (λ i. i ≡ self.now.leading_accepts) }
    {
        policy.expect(self.leading_accepts)?;
        Some(self.leading_accepts)
    }
}

/// Whether a verdict is `accept`.
pub fn is_accept(decision: Verdict) -> bool
    ensures { result ≡ is_accept decision }
{
    matches!(decision, Verdict::Accept)
}
