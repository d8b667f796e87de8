ghost use Rattle.std.specs.Prelude.{◌≡◌, ℕ, IsFalse, IsTrue, Some};
ghost use Rattle.device_types.specs.{Bounds.executable_region, Report.ReportFields, ExecFlag.{last_pc, ran_inside}};
ghost use Rattle.part_definitions.specs.TrustedFlag.{aux};
ghost use Rattle.device_trace.specs.{Logs.{aux_of, logged_bounds}, Report.{EachReport, AuxMeansTrustedRun}, Start.Start, Text.{last_denial, last_report}, Trace.{logs_after, trace, Play}, RegionRun.TrustedRun};
ghost use Rattle.trusted_execution.specs.TrustedCall.{aux_seen, AuxAfterCallMeansTrustedRun};

/// Where the second flag is set after a play and the last record is outside the executable region,
/// its bounds are valid, and the play has a trusted run of it.
pub fn aux_outside_means_trusted_run()
    ensures { (start : Start) (play : Play)
        → IsTrue (aux_seen (logs_after start play))
        → IsFalse (ran_inside (last_pc (logs_after start play).records)
        (executable_region (logged_bounds start (logs_after start play))))
        → TrustedRun (logged_bounds start (logs_after start play)) (trace start play) }
{}

/// At each moment of every play memory shows the flag as it is: a call does not change it.
pub fn calls_leave_aux()
    ensures { (start : Start) (play : Play)
        → start.second_flag ≡ aux
        → aux_of start (logs_after start play) ≡ aux_seen (logs_after start play) }
{}

/// Where the last step of a play finishes a call, whatever it decides, and AUX is 1, the play has a
/// trusted run of the executable region.
pub fn aux_after_call_means_trusted_run()
    ensures { (start : Start) (play : Play)
        → start.second_flag ≡ aux
        → AuxAfterCallMeansTrustedRun start play }
{}

/// So where it makes a report whose AUX is 1, of the region that the report names.
pub fn aux_in_report_means_trusted_run()
    ensures { (start : Start) (play : Play) (report : ReportFields)
        → start.second_flag ≡ aux
        → last_report start play ≡ Some report
        → IsTrue report.aux
        → TrustedRun report.bounds (trace start play) }
{}

/// And where it denies.
pub fn aux_at_denial_means_trusted_run()
    ensures { (start : Start) (play : Play) (denial : ℕ)
        → start.second_flag ≡ aux
        → last_denial start play ≡ Some denial
        → IsTrue (aux_of start (logs_after start play))
        → TrustedRun (logged_bounds start (logs_after start play)) (trace start play) }
{}

/// Each report of a play whose AUX is 1 comes after a trusted run of the region that it names.
pub fn each_aux_means_trusted_run()
    ensures { (start : Start) (play : Play)
        → start.second_flag ≡ aux
        → EachReport start play (AuxMeansTrustedRun start) }
{}
