ghost use Rattle.std.specs.Prelude.{◌≡◌, true, false};
ghost use Rattle.part_definitions.specs.MonitorRule.{in_rom, was_inside, atomicity_rule, breaks_a1, breaks_a2, breaks_a3, breaks_a4};

use device_types::{
    CR, KR, Kind, ROM_ENTRY, ROM_EXIT, Rule, Signals, XS, some_reads, some_touches,
};

/// The rules on the ROM's atomicity (A). They look at one step and at the `pc` of the record before
/// it, so the monitor keeps nothing.
#[derive(Clone, Copy, Debug)]
pub struct AtomMonitor;

impl AtomMonitor {
    pub fn new() -> AtomMonitor {
        AtomMonitor
    }

    /// The first of them that a step breaks after a record with this `pc`.
    #[inline(always)]
    #[tactic(auto, unfolding(part_definitions::specs::MonitorRule::atomicity_rule))]
    pub fn check(&self, last: Option<u16>, now: &Signals) -> Option<Rule>
        ensures { result ≡ atomicity_rule last now.now }
    {
        if CR.contains(now.pc) {
            check_within(last, now)
        } else if breaks_a1(last, now) {
            Some(Rule::A1)
        } else {
            None
        }
    }
}

// Likewise for a step in the ROM, which is all that A3, A2 and A4 look at.
#[inline(always)]
#[tactic(auto, unfolding(part_definitions::specs::MonitorRule::atomicity_rule))]
fn check_within(last: Option<u16>, now: &Signals) -> Option<Rule>
    requires { in_rom now.now.pc ≡ true }
    ensures { result ≡ atomicity_rule last now.now }
{
    if breaks_a3(now) {
        Some(Rule::A3)
    } else if breaks_a2(last, now) {
        Some(Rule::A2)
    } else if breaks_a4(now) {
        Some(Rule::A4)
    } else {
        None
    }
}

// The last record was in the ROM, and not at its exit.
#[inline(always)]
fn was_inside(last: Option<u16>) -> bool
    ensures { result ≡ was_inside last }
{
    last.is_some_and(|pc| CR.contains(pc) && pc != ROM_EXIT)
}

// A1, outside the ROM: it is left from another place than its exit.
#[inline(always)]
fn breaks_a1(last: Option<u16>, now: &Signals) -> bool
    requires { in_rom now.now.pc ≡ false }
    ensures { result ≡ breaks_a1 last now.now }
{
    was_inside(last) && now.kind != Kind::Boot
}

// A2, in the ROM: it is entered at another place than its entry.
#[inline(always)]
fn breaks_a2(last: Option<u16>, now: &Signals) -> bool
    requires { in_rom now.now.pc ≡ true }
    ensures { result ≡ breaks_a2 last now.now }
{
    now.pc != ROM_ENTRY && !was_inside(last)
}

// A3, in the ROM: an interrupt could be accepted.
#[inline(always)]
fn breaks_a3(now: &Signals) -> bool
    requires { in_rom now.now.pc ≡ true }
    ensures { result ≡ breaks_a3 now.now }
{
    now.irq
}

// A4: the return read touches the key or the exclusive stack.
#[inline(always)]
fn breaks_a4(now: &Signals) -> bool
    ensures { result ≡ breaks_a4 now.now }
{
    now.pc == ROM_EXIT
        && some_reads(now.cpu)
        && (some_touches(now.cpu, KR) || some_touches(now.cpu, XS))
}
