/// Where a device is at home.
#[derive(Clone, Copy, Debug)]
pub struct Home<'a> {
    /// How often it has moved from desk to desk.
    pub moves: u32,
    /// The desk that it is gone to; without one it is here.
    pub gone: Option<&'a [u8]>,
}
