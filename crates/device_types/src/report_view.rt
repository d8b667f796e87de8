use crate::bounds::Bounds;
use crate::version::Version;

/// An attestation report, as seen in the device's memory.
#[derive(Clone, Copy, Debug)]
pub struct ReportView<'a> {
    pub version: Version,
    /// The step that finished the call.
    pub step: u64,
    /// The EXEC flag.
    pub exec: bool,
    /// The second flag.
    pub aux: bool,
    /// The counter of the request.
    pub count: u32,
    pub chal: [u8; 32],
    pub bounds: Bounds,
    /// The bytes of the output region, where the bounds are valid.
    pub output: Option<&'a [u8]>,
    pub mac: [u8; 32],
}
