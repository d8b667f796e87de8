ghost use Rattle.device_trace.specs.{WorkedPlay.{PrintTheirTexts, program_plays, dma_plays, refused_plays, attested_plays, flag_plays}, WorkedRecord.{LeaveTheirRecords, worked_records}};

/// Programs that send, sleep, are interrupted, and are reset by the script.
pub fn programs_print_their_texts()
    ensures { PrintTheirTexts program_plays }
{}

/// The DMA engine beside the processor.
pub fn dma_plays_print_their_texts()
    ensures { PrintTheirTexts dma_plays }
{}

/// What the monitors refuse: the rule is named, and the device resets.
pub fn refused_plays_print_their_texts()
    ensures { PrintTheirTexts refused_plays }
{}

/// Attestations and their reports.
pub fn attested_plays_print_their_texts()
    ensures { PrintTheirTexts attested_plays }
{}

/// Runs of the executable region, of which only an undisturbed one sets the EXEC flag.
pub fn flag_plays_print_their_texts()
    ensures { PrintTheirTexts flag_plays }
{}

/// Whole records, of steps that are made and of steps that are refused.
pub fn steps_leave_their_records()
    ensures { LeaveTheirRecords worked_records }
{}
