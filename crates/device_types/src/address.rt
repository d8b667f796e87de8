ghost use Rattle.std.specs.Prelude.{◌≡◌};
ghost use Rattle.device_types.specs.Address.{even};

/// An address with bit 0 cleared: where the word lies that has the byte at this one.
#[inline(always)]
pub fn even(place: u16) -> u16
    ensures { result ≡ even place }
{
    place / 2 * 2
}
