/// Why no more packets are answered, beside a fault of writing.
#[derive(Clone, Copy, Debug, PartialEq, Eq)]
pub enum TalkEnd {
    /// The debugger has ended the session.
    Closed,
    /// There was no memory for an answer. A prefix of what was due was put.
    Memory,
}
