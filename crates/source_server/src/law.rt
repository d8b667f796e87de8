ghost use Rattle.source_server.specs.HeldLine.{IsCutAnywhere, IsHeld, IsPlain};

/// What is held of a line gives the line, and goes on to stand for what comes.
pub fn line_is_held_whole()
    ensures { IsHeld }
{}

/// Where bytes are cut into pieces changes nothing.
pub fn bytes_are_cut_anywhere()
    ensures { IsCutAnywhere }
{}

/// A piece without LF only lengthens the line that comes.
pub fn plain_piece_lengthens_line()
    ensures { IsPlain }
{}
