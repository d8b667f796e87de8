ghost use Rattle.std.specs.Prelude.{◌≡◌};
ghost use Rattle.device_types.specs.Access.{bytes_of, places_of};
ghost use Rattle.debug_session.specs.Watched.{data_access, flag_access, made_access, seen_accesses, is_of_kind, is_watched, first_watched, hit_by, hits_by, hits_of, first_hit, last_hit};

use crate::watch::{Hit, Watch, WatchKind};
use device_types::{AUX_WORD, Access, BusRecord, EXEC_WORD};
use word_arith::Size;

/// What a watch sees of a step, in this order.
#[derive(Clone, Copy, Debug, PartialEq, Eq)]
pub struct SeenAccesses {
    /// The access of the processor or the ROM.
    pub cpu: Option<Access>,
    pub dma: Option<Access>,
    /// The word of the EXEC flag, where that changed.
    pub exec: Option<Access>,
    /// The word of the second flag.
    pub aux: Option<Access>,
}

impl SeenAccesses {
    pub fn new(entry: &BusRecord, exec_changed: bool, aux_changed: bool) -> SeenAccesses
        ensures { result ≡ seen_accesses entry.now exec_changed aux_changed }
    {
        SeenAccesses {
            cpu: made_access(entry, entry.cpu),
            dma: made_access(entry, entry.dma),
            exec: flag_access(EXEC_WORD, exec_changed),
            aux: flag_access(AUX_WORD, aux_changed),
        }
    }

    /// The first hit.
    #[tactic(auto, using(crate::proofs::Hits::first_of_both))]
    pub fn first_hit(&self, watches: &[Watch]) -> Option<Hit>
        ensures { result ≡ first_hit (hits_of self.now watches.now) }
    {
        let cpu = first_hit_by(self.cpu, watches);
        let dma = first_hit_by(self.dma, watches);
        let exec = first_hit_by(self.exec, watches);
        let aux = first_hit_by(self.aux, watches);
        cpu.or(dma.or(exec.or(aux)))
    }

    /// The last hit, or the one before these where there is none.
    #[tactic(auto, using(crate::proofs::Hits::last_of_both))]
    pub fn last_hit(&self, watches: &[Watch], before: Option<Hit>) -> Option<Hit>
        ensures { result ≡ last_hit before (hits_of self.now watches.now) }
    {
        let cpu = last_hit_by(self.cpu, watches, before);
        let dma = last_hit_by(self.dma, watches, cpu);
        let exec = last_hit_by(self.exec, watches, dma);
        last_hit_by(self.aux, watches, exec)
    }
}

// A fetch is none that a watch sees.
fn data_access(access: Option<Access>) -> Option<Access>
    ensures { result ≡ data_access access }
{
    match access {
        Some(Access::Fetch(_)) => None,
        _ => access,
    }
}

fn made_access(entry: &BusRecord, access: Option<Access>) -> Option<Access>
    ensures { result ≡ made_access entry.now access }
{
    if entry.reset.is_some() {
        None
    } else {
        data_access(access)
    }
}

fn flag_access(place: u16, changed: bool) -> Option<Access>
    ensures { result ≡ flag_access place changed }
{
    if changed {
        Some(Access::Write(place, Size::Word, 0))
    } else {
        None
    }
}

fn is_of_kind(kind: WatchKind, access: &Access) -> bool
    ensures { result ≡ is_of_kind kind access.now }
{
    match kind {
        WatchKind::Write => access.is_write(),
        WatchKind::Read => access.is_read(),
        WatchKind::Either => true,
    }
}

fn is_watched(watch: Watch, place: u16) -> bool
    ensures { result ≡ is_watched watch place }
{
    watch.first <= place && u32::from(place - watch.first) < watch.size
}

// The first byte of an operand that is watched. None lies behind FFFF.
fn first_watched(watch: Watch, place: u16, size: Size) -> Option<u16>
    ensures { result ≡ first_watched watch (places_of place size) }
{
    if is_watched(watch, place) {
        return Some(place);
    }
    match size {
        Size::Byte => None,
        Size::Word => {
            let next = place.checked_add(1)?;
            if is_watched(watch, next) {
                Some(next)
            } else {
                None
            }
        }
    }
}

fn watched_byte(watch: Watch, access: &Access) -> Option<u16>
    ensures { result ≡ first_watched watch (bytes_of access.now) }
{
    match *access {
        Access::Fetch(place) => first_watched(watch, place, Size::Word),
        Access::Read(place, size) | Access::Write(place, size, _) => {
            first_watched(watch, place, size)
        }
    }
}

pub fn hit_by(access: &Access, watch: Watch) -> Option<Hit>
    ensures { result ≡ hit_by access.now watch }
{
    if !is_of_kind(watch.kind, access) {
        return None;
    }
    let place = watched_byte(watch, access)?;
    Some(Hit {
        kind: watch.kind,
        place,
    })
}

fn first_hit_by(made: Option<Access>, watches: &[Watch]) -> Option<Hit>
    ensures { result ≡ first_hit (hits_by made watches.now) }
{
    let Some(access) = made else {
        return None;
    };
    let mut first = None;
    for watch in watches {
        first = first.or(hit_by(&access, *watch));
    }
    first
}

fn last_hit_by(made: Option<Access>, watches: &[Watch], before: Option<Hit>) -> Option<Hit>
    ensures { result ≡ last_hit before (hits_by made watches.now) }
{
    let Some(access) = made else {
        return before;
    };
    let mut last = before;
    for watch in watches {
        last = hit_by(&access, *watch).or(last);
    }
    last
}
