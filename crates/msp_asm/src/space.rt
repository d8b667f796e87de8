ghost use Rattle.std.specs.{Prelude.{◌≡◌, ◌≤◌, ◌+◌, ◌||◌, ◌==◌, ◌<◌, ℕ, true, false, IfOk, OnOk, IfErr}, Result.result_err};
ghost use Rattle.part_definitions.specs.Memory.{is_image_place};
ghost use Rattle.msp_asm.specs.{FirstPass.{places_from, is_among, space_fault}, FirstPassState.occupies};

use mem_map::Image;
use text_scan::FaultKind;

// Takes a place, where an image may hold a byte, and answers whether it was taken before.
fn take_place(occupancy: &mut Image, place: u32) -> Result<bool, FaultKind>
    ensures before { IfOk result (λ was_taken. was_taken ≡ occupies occupancy.old place) }
    ensures placed { OnOk result (is_image_place place ≡ true) }
    ensures most { OnOk result (place < 65536) }
    ensures taken { OnOk result ((other : ℕ)
        → occupies occupancy.new other ≡ ((other == place) || occupies occupancy.old other)) }
    ensures refused { IfErr result (λ kind.
        (kind ≡ FaultKind.Place) × (is_image_place place ≡ false)) }
{
    let Ok(place) = u16::try_from(place) else {
        return Err(FaultKind::Place);
    };
    let was_taken = occupancy.get(place).is_some();
    if !occupancy.set(place, 0) {
        return Err(FaultKind::Place);
    }
    Ok(was_taken)
}

/// Takes so many places from one upwards, and answers the place behind them. `Place` where an image
/// holds no byte at one of them, else `Overlap` where one was taken before.
pub fn take_places(occupancy: &mut Image, first: u32, count: usize) -> Result<u32, FaultKind>
    requires { first ≤ 65536 }
    ensures fault { result_err result
        ≡ space_fault (occupies occupancy.old) (places_from first count) }
    ensures next { IfOk result (λ next. next ≡ first + count) }
    ensures most { IfOk result (λ next. next ≤ 65536) }
    ensures taken { OnOk result ((place : ℕ)
        → occupies occupancy.new place
        ≡ (is_among first count place || occupies occupancy.old place)) }
{
    let mut next = first;
    let mut overlaps = false;
    for _step in 0..count {
        overlaps |= take_place(occupancy, next)?;
        next += 1;
    }
    if overlaps {
        return Err(FaultKind::Overlap);
    }
    Ok(next)
}
