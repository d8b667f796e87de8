/// The version of a report, or of what is expected of one.
#[derive(Clone, Copy, Debug, PartialEq, Eq)]
pub enum Version {
    /// Metadata of 42 bytes, which end with the EXEC word.
    One,
    /// Requests carry a counter and a token, and there is a second flag.
    Two,
}
