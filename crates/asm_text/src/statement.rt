use crate::body::Body;
use crate::characters::Characters;

/// What a line says.
#[derive(Debug, Drop)]
pub struct Statement<'a> {
    /// The number of the line, from 1.
    pub line: u64,
    /// The name before the line's colon.
    pub label: Option<Characters<'a>>,
    pub body: Body<'a>,
}
