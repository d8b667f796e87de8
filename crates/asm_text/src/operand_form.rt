/// The operands that an instruction takes.
#[derive(Clone, Copy, Debug, PartialEq, Eq)]
pub enum OperandForm {
    SourceAndDestination,
    Source,
    Destination,
    /// A destination, or a place that a register points to.
    InPlace,
    /// A destination that is a source too.
    DestinationTwice,
    /// Where a jump goes.
    Target,
    Nothing,
}
