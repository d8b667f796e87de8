ghost use Rattle.std.specs.Prelude.{◌≡◌, ◌+◌, true};
ghost use Rattle.device_types.specs.Map.{key_region, stack_region, some_touches};
ghost use Rattle.part_definitions.specs.MonitorRule.{in_rom, is_written_by_rom, leaves_stack_and_mac, key_rule, breaks_k1, breaks_k2, breaks_k3, breaks_k4, breaks_k5, breaks_k6};

use device_types::{Access, CR, KR, MR, Region, Rule, Signals, XS, some_touches, some_writes};
use word_arith::Size;

/// The rules on key and exclusive stack (K). They look at one step alone, so the monitor keeps
/// nothing.
#[derive(Clone, Copy, Debug)]
pub struct KeyMonitor;

impl KeyMonitor {
    pub fn new() -> KeyMonitor {
        KeyMonitor
    }

    /// The first of the rules that a step breaks.
    #[inline(always)]
    #[tactic(auto, unfolding(part_definitions::specs::MonitorRule::key_rule))]
    pub fn check(&self, now: &Signals) -> Option<Rule>
        ensures { result ≡ key_rule now.now }
    {
        let in_rom = CR.contains(now.pc);
        if breaks_k1(now, in_rom) {
            Some(Rule::K1)
        } else if breaks_k2(now, in_rom) {
            Some(Rule::K2)
        } else if breaks_k3(now, in_rom) {
            Some(Rule::K3)
        } else if breaks_k4(now) {
            Some(Rule::K4)
        } else if breaks_k5(now) {
            Some(Rule::K5)
        } else if breaks_k6(now, in_rom) {
            Some(Rule::K6)
        } else {
            None
        }
    }
}

// K1: from outside the ROM a fetch or read touches the key.
#[inline(always)]
fn breaks_k1(now: &Signals, inside: bool) -> bool
    requires { inside ≡ in_rom now.now.pc }
    ensures { result ≡ breaks_k1 now.now }
{
    !inside && touches_key(now.cpu) && !some_writes(now.cpu)
}

// K2: from outside the ROM an access touches the exclusive stack.
#[inline(always)]
fn breaks_k2(now: &Signals, inside: bool) -> bool
    requires { inside ≡ in_rom now.now.pc }
    ensures { result ≡ breaks_k2 now.now }
{
    !inside && touches_stack(now.cpu)
}

// K3: the ROM writes outside the exclusive stack and the MAC.
#[inline(always)]
fn breaks_k3(now: &Signals, inside: bool) -> bool
    requires { inside ≡ in_rom now.now.pc }
    ensures { result ≡ breaks_k3 now.now }
{
    inside && some_writes(now.cpu) && leaves_stack_and_mac(now.cpu)
}

// K4: the DMA touches the key.
#[inline(always)]
fn breaks_k4(now: &Signals) -> bool
    ensures { result ≡ breaks_k4 now.now }
{
    touches_key(now.dma)
}

// K5: the DMA touches the exclusive stack.
#[inline(always)]
fn breaks_k5(now: &Signals) -> bool
    ensures { result ≡ breaks_k5 now.now }
{
    touches_stack(now.dma)
}

// K6: the DMA has an access while the ROM runs.
#[inline(always)]
fn breaks_k6(now: &Signals, inside: bool) -> bool
    requires { inside ≡ in_rom now.now.pc }
    ensures { result ≡ breaks_k6 now.now }
{
    inside && now.dma.is_some()
}

// A byte of the access lies in the key. Nearly no access comes near what is secret, so that is
// asked first.
#[inline(always)]
fn touches_key(access: Option<Access>) -> bool
    ensures { result ≡ some_touches access key_region }
{
    comes_near(access) && some_touches(access, KR)
}

// Likewise in the exclusive stack.
#[inline(always)]
fn touches_stack(access: Option<Access>) -> bool
    ensures { result ≡ some_touches access stack_region }
{
    comes_near(access) && some_touches(access, XS)
}

// The exclusive stack, the key, and what is between them.
const SECRETS: Region = Region {
    first: XS.first,
    last: KR.last,
};

// The access is at a place of these or right before them. Any that touches the exclusive stack or
// the key is.
#[inline(always)]
fn comes_near(access: Option<Access>) -> bool
    ensures key { some_touches access key_region ≡ true → result ≡ true }
    ensures stack { some_touches access stack_region ≡ true → result ≡ true }
{
    match access {
        None => false,
        Some(Access::Fetch(place) | Access::Read(place, _) | Access::Write(place, _, _)) => {
            SECRETS.contains(place) || SECRETS.contains_next(place)
        }
    }
}

// A byte of the access lies outside the exclusive stack and the MAC.
fn leaves_stack_and_mac(access: Option<Access>) -> bool
    ensures { result ≡ leaves_stack_and_mac access }
{
    match access {
        None => false,
        Some(Access::Read(place, Size::Byte) | Access::Write(place, Size::Byte, _)) => {
            !is_written_by_rom(place)
        }
        Some(
            Access::Fetch(place)
            | Access::Read(place, Size::Word)
            | Access::Write(place, Size::Word, _),
        ) => !is_written_by_rom(place) || !is_next_written_by_rom(place),
    }
}

// A call of the ROM writes here.
fn is_written_by_rom(place: u16) -> bool
    ensures { result ≡ is_written_by_rom place }
{
    XS.contains(place) || MR.contains(place)
}

// A call of the ROM writes at the address after this one.
fn is_next_written_by_rom(place: u16) -> bool
    ensures { result ≡ is_written_by_rom (place + 1) }
{
    XS.contains_next(place) || MR.contains_next(place)
}
