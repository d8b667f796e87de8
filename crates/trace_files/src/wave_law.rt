ghost use Rattle.trace_files.specs.WaveReadBack.{WavesReadBack};

/// In the waveform of less than 2^32 steps, whose numbers fit and whose accesses are as the bus
/// allows them, a reader finds at the time of each step what its line says, its ports, and EXEC and
/// the state before it.
pub fn wave_reads_back()
    ensures { WavesReadBack }
{}
