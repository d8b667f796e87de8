ghost use Rattle.std.specs.Prelude.{◌≡◌, ◌∷◌, [], List};
ghost use Rattle.trace_files.specs.{declared.trace_line.TraceLine.TraceLine, Clean.{right_rule, right_exec}, Offence.{offence_of, difference}};

use crate::offence::Offence;
use crate::rule::first_rule;
use crate::run::{is_disturbed, starts_run};
use crate::trace_line::TraceLine;
use device_types::Rule;

/// What an audit keeps of the lines that it has seen.
#[derive(Clone, Copy, Debug)]
pub struct Audit {
    last_pc: Option<u16>,
    // The EXEC flag after them.
    exec: bool,
}

impl Audit {
    ghost use Rattle.trace_files.specs.AuditText.{AuditStandsFor};

    /// An audit that has seen no line.
    #[tactic(auto, unfolding(device_types::specs::ExecFlag::exec))]
    pub fn new() -> Audit
        ensures { AuditStandsFor result [] }
    {
        Audit {
            last_pc: None,
            exec: false,
        }
    }

    /// Sees the next line, and says what is wrong with it.
    pub fn see(&mut self, line: &TraceLine) -> Option<Offence>
        ensures offence { (before : List TraceLine) → AuditStandsFor self.old before
            → result ≡ offence_of before line.now }
        ensures stands { (before : List TraceLine) → AuditStandsFor self.old before
            → AuditStandsFor self.new (line.now ∷ before) }
    {
        let rule = first_rule(self.last_pc, line);
        let exec = self.exec_after(line);
        self.last_pc = Some(line.pc);
        self.exec = exec;
        difference(line.rule, line.exec, rule, exec)
    }

    // The EXEC flag after a further line.
    #[tactic(auto, using(crate::proofs::Exec::exec_cons))]
    fn exec_after(&self, line: &TraceLine) -> bool
        ensures { (before : List TraceLine) → AuditStandsFor self.now before
            → result ≡ right_exec (line.now ∷ before) }
    {
        (self.exec || starts_run(line)) && !is_disturbed(self.last_pc, line)
    }
}

fn difference(
    rule: Option<Rule>,
    exec: bool,
    right_rule: Option<Rule>,
    right_exec: bool,
) -> Option<Offence>
    ensures { result ≡ difference rule exec right_rule right_exec }
{
    if rule != right_rule {
        Some(Offence::RuleIs(right_rule))
    } else if exec != right_exec {
        Some(Offence::ExecIs(right_exec))
    } else {
        None
    }
}
