use thiserror::Error;

/// Why a memory is not one that a command asks for.
#[derive(Clone, Copy, Debug, PartialEq, Eq, Error)]
pub enum Unfit {
    /// There is no file of its name.
    #[error("there is none: found it first")]
    Missing,
    /// It is empty, or its making was cut off.
    #[error("it was not founded: found it first")]
    Unfounded,
    /// The file is something else, or damaged.
    #[error("no memory of a desk, or damaged")]
    Foreign,
    /// The log beside it is of another memory, or of another time.
    #[error("the log beside it is not its own")]
    OtherLog,
    /// One was to be made, and there is one.
    #[error("it is there already")]
    Founded,
    /// The key of the device of this number stands under another name.
    #[error("the key of device {0} stands under another name")]
    TakenKey(u64),
    /// The device of this number is gone to another desk.
    #[error("device {0} has gone to another desk")]
    GoneDevice(u64),
    /// It has no device of the name that is to move.
    #[error("it has no such device")]
    NoDevice,
    /// The device that is to move is gone to another desk than the one that was named.
    #[error("the device has gone to another desk")]
    Gone,
    /// A device was to move to the desk that it is at.
    #[error("that is its own desk")]
    OwnDesk,
    /// The device has moved 4,294,967,295 times.
    #[error("the device has moved as often as can be")]
    LastMove,
}
