use crate::offence::Offence;

/// What an audit says of a trace file.
#[derive(Clone, Copy, Debug, PartialEq, Eq)]
pub struct Audited {
    /// How many lines it has.
    pub lines: u64,
    /// The first line that is not right, by the number of its step, and what would be right there.
    pub offence: Option<(u64, Offence)>,
}
