ghost use Rattle.desk_cli.specs.ReadBack.{StatesReadBack, VersionOneReadsBack};

/// What `states` prints of a desk's memory, `remember` reads as the same entries.
pub fn states_read_back()
    ensures { StatesReadBack }
{}

/// What `states` of version 1 printed, `remember` reads as the same entries, which have not moved.
pub fn version_one_reads_back()
    ensures { VersionOneReadsBack }
{}
