use crate::command::file_command::ShownKind;
use crate::ending::Ending;
use crate::kind::trace::Trace;
use device_play::PutFault;
use outside_edge::Sink;
use trace_files::{Audited, print_audited};

/// The command `audit TRACE`.
impl ShownKind for Trace {
    ghost use Rattle.std.specs.Prelude.{refl};
    ghost use Rattle.device_cli.specs.Command.{audit_outcome, audit_row};

    ghost row_of_file = { audit_row };

    ghost outcome = { λ audited. audit_outcome audited };

    fn kind() -> Trace {
        Trace
    }

    fn put<W: Sink>(audited: &Audited, sink: &mut W) -> Result<Ending, PutFault> {
        print_audited(audited, sink)?;
        Ok(Ending::of(audited.offence.is_none()))
    }

    ghost shown = { record {
      told = audit_outcome;
      row_is = λ name. refl;
      outcome_is = refl;
      of_no_play = λ meaning. refl;
    } };
}
