/// Whether more packets are answered.
#[derive(Clone, Copy, Debug, PartialEq, Eq)]
pub enum Connection {
    Open,
    /// The debugger has ended the session.
    Closed,
}
