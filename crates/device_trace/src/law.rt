ghost use Rattle.std.specs.Prelude.{All};
ghost use Rattle.device_trace.specs.{Start.Start, AccessesAreFormed.AccessesAreFormed, Trace.{trace, Play}};

/// In each record of each play a word access has an even address, and a byte write carries one
/// byte.
pub fn accesses_are_formed()
    ensures { (start : Start) (play : Play)
        → All AccessesAreFormed (trace start play) }
{}
