ghost use Rattle.std.specs.Prelude.{◌≡◌, None};

use device_types::{Bounds, BusRecord, Signals};

/// A step that was made or refused.
#[derive(Clone, Copy, Debug)]
pub struct LastStep {
    /// What it was about to do, where it was refused. A step that was made is told by its record.
    pub refused: Option<Signals>,
    /// The bounds as they stood before it.
    pub bounds: Bounds,
    /// What it did.
    pub entry: BusRecord,
}

/// Keeps no step. Nothing is written over none.
#[inline(always)]
pub fn keep_none(last: &mut Option<LastStep>)
    ensures { last.new ≡ None }
{
    if last.is_some() {
        *last = None;
    }
}
