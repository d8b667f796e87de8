/// What a step leaves of which no line tells.
#[derive(Clone, Copy, Debug)]
pub struct State {
    /// The registers at the last boundary.
    pub registers: [u16; 16],
    /// The second flag.
    pub aux: bool,
    /// The interrupt flag of the timer.
    pub timer_flag: bool,
}
