ghost use Rattle.std.specs.Prelude.{◌≡◌, IfSome};
ghost use Rattle.device_types.specs.Access.{IsFormed};
ghost use Rattle.device_trace.specs.Blank.{blank_access, blank_value, blank_record};

use device_types::{Access, BusRecord, KR, XS, touches};

/// A record with the secrets blanked. Only steps of the ROM touch one.
#[inline(always)]
pub fn blank_record(entry: &BusRecord) -> BusRecord
    ensures { result ≡ blank_record entry.now }
{
    BusRecord {
        cpu: blank_access(entry.cpu),
        value: blank_value(entry.cpu, entry.value),
        dma: blank_access(entry.dma),
        dma_value: blank_value(entry.dma, entry.dma_value),
        ..*entry
    }
}

/// 0 for the number of a write to the exclusive stack.
#[inline(always)]
pub fn blank_access(access: Option<Access>) -> Option<Access>
    ensures value { result ≡ blank_access access }
    ensures formed { IfSome access IsFormed → IfSome result IsFormed }
{
    match access {
        Some(Access::Write(place, size, number)) => {
            if touches(&Access::Write(place, size, number), XS) {
                Some(Access::Write(place, size, 0))
            } else {
                access
            }
        }
        other => other,
    }
}

/// 0 for the value of a read that touches the key or the stack.
#[inline(always)]
pub fn blank_value(access: Option<Access>, value: u16) -> u16
    ensures { result ≡ blank_value access value }
{
    match access {
        Some(access) if touches(&access, KR) || touches(&access, XS) => 0,
        _ => value,
    }
}
