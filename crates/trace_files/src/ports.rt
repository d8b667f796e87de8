/// The ports in a step.
#[derive(Clone, Copy, Debug, PartialEq, Eq)]
pub struct Ports {
    /// The pins, as a read in the step has them.
    pub pins: u16,
    /// The byte that the step sent by the serial port.
    pub sent: Option<u8>,
    /// The byte that a read of SRXD gave, 0 where none waited.
    pub received: Option<u8>,
}
