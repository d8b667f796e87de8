ghost use Rattle.std.specs.Prelude.{◌≡◌};
ghost use Rattle.report_verifier.specs.Validity.{are_valid_for};

use device_types::{Bounds, Version, valid, valid_one};

/// Whether the bounds are valid in a version: beside its metadata.
pub fn valid_for(version: Version, bounds: &Bounds) -> bool
    ensures { result ≡ are_valid_for version bounds.now }
{
    match version {
        Version::One => valid_one(bounds),
        Version::Two => valid(bounds),
    }
}
