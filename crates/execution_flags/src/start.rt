ghost use Rattle.std.specs.Prelude.{◌≡◌, ◌&&◌};
ghost use Rattle.device_types.specs.{Bounds.are_valid, ExecFlag.{is_opcode_fetch, fetches_first, starts_run}};

use device_types::{Access, Bounds, BusRecord, Kind, valid};

/// Whether a record starts a run: the opcode fetch at ERmin, with valid bounds.
#[inline(always)]
pub fn starts_run(entry: &BusRecord, bounds: &Bounds) -> bool
    ensures { result ≡ starts_run (record { entry = entry.now; bounds = bounds.now }) }
{
    entry.pc == bounds.er_min && is_valid_start(entry, *bounds)
}

/// Whether a record is the opcode fetch at ERmin.
pub fn fetches_first(entry: &BusRecord, bounds: &Bounds) -> bool
    ensures { result ≡ fetches_first bounds.now entry.now }
{
    entry.pc == bounds.er_min && is_opcode_fetch(entry)
}

// An opcode fetch, with valid bounds.
#[inline(never)]
fn is_valid_start(entry: &BusRecord, bounds: Bounds) -> bool
    ensures { result ≡ (is_opcode_fetch entry.now && are_valid bounds) }
{
    is_opcode_fetch(entry) && valid(&bounds)
}

// An opcode fetch fetches at its own `pc`.
fn is_opcode_fetch(entry: &BusRecord) -> bool
    ensures { result ≡ is_opcode_fetch entry.now }
{
    entry.kind == Kind::Cpu && entry.cpu == Some(Access::Fetch(entry.pc))
}
