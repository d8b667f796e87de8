use crate::ports::Ports;
use crate::state::State;
use crate::trace_line::TraceLine;

/// What a waveform shows of a step: its trace line, the ports in it, and what it leaves.
#[derive(Clone, Copy, Debug)]
pub struct Sample {
    pub line: TraceLine,
    pub ports: Ports,
    pub state: State,
}
