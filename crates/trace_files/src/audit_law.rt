ghost use Rattle.trace_files.specs.Offence.{CleanHasNoOffence};

/// A list of lines has no offence exactly where it is clean.
pub fn clean_lines_have_no_offence()
    ensures { CleanHasNoOffence }
{}
