use crate::inputs::text_of;
use std::alloc::{AllocError, Global};

/// The reset vector C000, and the end record.
pub const VECTOR_AND_END: &str = ":02FFFE0000C041\n:00000001FF\n";

/// Receives the 80 bytes of the metadata, runs the region that copies the pins, calls the ROM, and
/// stops.
pub const REQUESTED_IMAGE: &str = ":10C000003140002232C23540400292B37200FD2717\n\
:10C01000D54274000000155335909002F623B012FB\n\
:08C0200040C0B01200A0FF3F78\n\
:08C04000924220000003304190\n";

/// The policy of that region, under its flag.
pub const EXEC_REGIONS: &str = "version 2\ner C040 C046\nor 0300 0300\nflag exec\n";

/// An image of these records, of the reset vector C000, and of the end record.
pub fn image_of(alloc: Global, records: &str) -> Result<Vec<u8>, AllocError> {
    text_of(alloc, &[records, VECTOR_AND_END])
}
