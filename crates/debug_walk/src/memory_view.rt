ghost use Rattle.std.specs.Prelude.{◌≡◌, ℕ, Some, min, true};
ghost use Rattle.device_core.specs.Device.{LiveStandsFor};
ghost use Rattle.debug_session.specs.{Place.{Run, is_shown, play_to, sight_at}, Shown.{bytes_shown, registers_bytes}};
ghost use Rattle.debug_walk.specs.Walk.{OfWalk};

use crate::walk::Walk;
use arrayvec::ArrayVec;
use device_core::Live;
use device_types::{KR, TraceFlag, XS};
use hmac_core::Digest32;

/// The most bytes that are shown at once.
pub const MOST_BYTES: usize = 2_048;

/// Whether a place has a byte that may be shown.
pub fn is_shown(place: u32) -> bool
    ensures { result ≡ is_shown place }
{
    if place > 0xFFFF {
        return false;
    }
    let place = place as u16;
    !KR.contains(place) && !XS.contains(place)
}

// The byte of an address that may be shown.
fn shown_byte<D: Digest32, G: TraceFlag>(live: &Live<D, G>, at: u16) -> u8
    ensures { (run : Run) (place : ℕ)
        → LiveStandsFor D.hash G.flag live.now run.start (play_to run place)
        → is_shown at ≡ true
        → (sight_at run place).byte_at at ≡ Some result }
{
    (live.peek(at) % 256) as u8
}

/// The bytes of at most so many addresses, up to the first that has none.
pub fn live_bytes<D: Digest32, G: TraceFlag>(
    live: &Live<D, G>,
    first: u32,
    size: u32,
) -> ArrayVec<u8, MOST_BYTES>
    ensures { (run : Run) (place : ℕ)
        → LiveStandsFor D.hash G.flag live.now run.start (play_to run place)
        → result.items ≡ bytes_shown (sight_at run place) first (min size 2048) }
{
    let mut bytes = ArrayVec::new();
    let count = size.min(MOST_BYTES as u32);
    for at in first..first.saturating_add(count) {
        if !is_shown(at) {
            return bytes;
        }
        bytes.push(shown_byte(live, at as u16));
    }
    bytes
}

/// Those of a walk's device.
pub fn shown_bytes<D: Digest32>(
    walk: &Walk<'_, D>,
    first: u32,
    size: u32,
) -> ArrayVec<u8, MOST_BYTES>
    ensures { OfWalk D.hash walk.now (λ run place.
        result.items ≡ bytes_shown (sight_at run place) first (min size 2048)) }
{
    live_bytes(walk.live(), first, size)
}

/// The sixteen registers, each with four bytes, the low one first.
pub fn shown_registers<D: Digest32>(walk: &Walk<'_, D>) -> ArrayVec<u8, 64>
    ensures { OfWalk D.hash walk.now (λ run place.
        result.items ≡ registers_bytes (sight_at run place).registers) }
{
    registers_bytes(walk.live().registers())
}

fn registers_bytes(registers: &[u16; 16]) -> ArrayVec<u8, 64>
    ensures { result.items ≡ registers_bytes registers.now }
{
    let mut bytes = ArrayVec::new();
    for register in registers {
        let [low, high] = register.to_le_bytes();
        bytes.push(low);
        bytes.push(high);
        bytes.push(0);
        bytes.push(0);
    }
    bytes
}
