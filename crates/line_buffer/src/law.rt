ghost use Rattle.line_buffer.specs.LineLaw.{IsReadByWords, HasRoom};

/// A line of pieces is one line of its text, and its words are those of its pieces.
pub fn line_is_read_by_words()
    ensures { IsReadByWords }
{}

/// A line of pieces is as long as its keyword, its pieces with a space before each, and the LF.
pub fn line_has_room()
    ensures { HasRoom }
{}
