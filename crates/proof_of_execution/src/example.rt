ghost use Rattle.std.specs.Prelude.{◌≡◌, Some, false, true};
ghost use Rattle.device_trace.specs.{Example.{guarded_region, start_with}, Text.last_report};
ghost use Rattle.proof_of_execution.specs.Example.{play_with_byte, quiet_play, reported_exec};

/// A region that runs undisturbed is reported with EXEC 1.
pub fn quiet_run_is_reported()
    ensures { reported_exec (last_report (start_with guarded_region) quiet_play) ≡ Some true }
{}

/// One that a byte interrupts is reported with EXEC 0.
pub fn interrupted_run_is_reported()
    ensures { reported_exec (last_report (start_with guarded_region) play_with_byte) ≡ Some false }
{}
