use thiserror::Error;

/// Why an instruction has no words. The variants stand in the order in which they are tried.
#[derive(Clone, Copy, Debug, PartialEq, Eq, Error)]
pub enum EncodeFault {
    #[error("SWPB, SXT and CALL have no byte form")]
    NoByteForm,
    #[error("an immediate or a constant takes no result")]
    NotWritable,
    #[error("the source's mode and register mean another operand")]
    NoSuchForm,
    #[error("the jump is not by -512 to 511 words")]
    OffsetRange,
}
