ghost use Rattle.trace_files.specs.LineReadBack.{FilesReadBack, LinesReadBack};

/// The text of a line is read as that line: where its accesses are as the bus allows them and its
/// step is below 2^32.
pub fn trace_line_reads_back()
    ensures { LinesReadBack }
{}

/// The text of a trace file of at most 2^32 such lines is read as these lines.
pub fn trace_file_reads_back()
    ensures { FilesReadBack }
{}
