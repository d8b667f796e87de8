use crate::watch::Watch;

/// A breakpoint or a watch that is set or taken back.
#[derive(Clone, Copy, Debug, PartialEq, Eq)]
pub enum StopChange {
    SetBreakpoint(u16),
    ClearBreakpoint(u16),
    SetWatch(Watch),
    ClearWatch(Watch),
}
