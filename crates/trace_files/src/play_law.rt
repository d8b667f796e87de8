ghost use Rattle.device_trace.specs.{Trace.Play, Start.Start};
ghost use Rattle.key_isolation.specs.Keyless.{ReleaseAlike, SameButKey};
ghost use Rattle.trace_files.specs.{Clean.IsClean, KeylessLines.{HasKeylessLines, IsKeyless}, TraceText.trace_lines};

/// The lines of every play are clean: each names the first rule that its step breaks, as far as the
/// line itself and the one before it tell, and the EXEC flag over the lines up to it.
pub fn trace_is_clean()
    ensures { (start : Start) (play : Play) → IsClean (trace_lines start play) }
{}

/// The lines of every play, and what a waveform shows beside them, are those that it has without
/// its key, where the calls release the same words.
pub fn lines_are_keyless()
    ensures { (start : Start) (play : Play) → HasKeylessLines start play }
{}

/// So a second key whose released words agree with those of the first gives the same lines, and
/// with them the same trace file and the same waveform.
pub fn second_key_gives_same_lines()
    ensures { (start other : Start) (play : Play)
        → SameButKey start other
        → ReleaseAlike start other play
        → IsKeyless start other play }
{}
