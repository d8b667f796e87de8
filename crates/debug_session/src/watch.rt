ghost use Rattle.std.specs.Prelude.{◌≡◌};
ghost use Rattle.debug_session.specs.Stops.{same_kind, same_watch};

/// Which accesses a watch is of.
#[derive(Clone, Copy, Debug, Default, PartialEq, Eq)]
pub enum WatchKind {
    #[default]
    Write,
    Read,
    Either,
}

/// Watched bytes: so many from a place on.
#[derive(Clone, Copy, Debug, Default, PartialEq, Eq)]
pub struct Watch {
    pub kind: WatchKind,
    pub first: u16,
    pub size: u32,
}

/// A watch that was hit, and the first of its bytes that was touched.
#[derive(Clone, Copy, Debug, PartialEq, Eq)]
pub struct Hit {
    pub kind: WatchKind,
    pub place: u16,
}

fn same_kind(one: WatchKind, other: WatchKind) -> bool
    ensures { result ≡ same_kind one other }
{
    matches!(
        (one, other),
        (WatchKind::Write, WatchKind::Write)
            | (WatchKind::Read, WatchKind::Read)
            | (WatchKind::Either, WatchKind::Either)
    )
}

/// Whether two watches are of the same accesses and bytes.
pub fn same_watch(one: &Watch, other: &Watch) -> bool
    ensures { result ≡ same_watch one.now other.now }
{
    same_kind(one.kind, other.kind) && one.first == other.first && one.size == other.size
}
