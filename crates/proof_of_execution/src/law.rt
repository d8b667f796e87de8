ghost use Rattle.std.specs.Prelude.{◌≡◌, ℕ, IsTrue, Some};
ghost use Rattle.device_types.specs.Report.{ReportFields};
ghost use Rattle.device_trace.specs.{Logs.{exec_of, logged_bounds}, Report.{EachReport, ExecMeansWholeRun}, Start.Start, Text.{last_denial, last_report}, Trace.{logs_after, trace, Play}, RegionRun.WholeRun};
ghost use Rattle.proof_of_execution.specs.WholeCall.{ExecAfterCallMeansWholeRun};

/// Where the last step of a play finishes a call, whatever it decides, and EXEC is 1, the bounds
/// are valid, and the play has a whole run of the executable region: from an opcode fetch at ERmin
/// to an exit at ERmax, with no interrupt, no DMA and no fetch from outside; code and metadata are
/// untouched since the entry, and the output is untouched since the exit.
pub fn exec_after_call_means_whole_run()
    ensures { (start : Start) (play : Play) → ExecAfterCallMeansWholeRun start play }
{}

/// So where it makes a report whose EXEC is 1, of the region that the report names.
pub fn exec_in_report_means_whole_run()
    ensures { (start : Start) (play : Play) (report : ReportFields)
        → last_report start play ≡ Some report
        → IsTrue report.exec
        → WholeRun report.bounds (trace start play) }
{}

/// And where it denies.
pub fn exec_at_denial_means_whole_run()
    ensures { (start : Start) (play : Play) (denial : ℕ)
        → last_denial start play ≡ Some denial
        → IsTrue (exec_of (logs_after start play))
        → WholeRun (logged_bounds start (logs_after start play)) (trace start play) }
{}

/// Each report of a play whose EXEC is 1 comes after a whole run of the region that it names.
pub fn each_exec_means_whole_run()
    ensures { (start : Start) (play : Play)
        → EachReport start play (ExecMeansWholeRun start) }
{}
