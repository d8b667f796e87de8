ghost use Rattle.std.specs.Prelude.{◌≡◌, ◌&&◌, ◌||◌, true, false};
ghost use Rattle.device_types.specs.{Access.{some_writes, some_reads}, Map.{some_touches, key_region, stack_region}};
ghost use Rattle.part_definitions.specs.{FirstRule.{first_rule, breaks_i1}, MonitorRule.{key_rule, atomicity_rule, in_rom, was_inside, leaves_stack_and_mac}};
ghost use Rattle.trace_files.specs.Clean.{signals_in};

use crate::span::{KEY, MAC, STACK, is_rom};
use crate::trace_line::TraceLine;
use device_types::{Access, Kind, Rule};
use msp_decode::decode;

/// The first rule that the step of a line breaks, after a step at this `pc`.
#[tactic(auto, unfolding(part_definitions::specs::FirstRule::first_rule))]
pub fn first_rule(last: Option<u16>, line: &TraceLine) -> Option<Rule>
    ensures { result ≡ first_rule last (signals_in line.now) }
{
    if line.asked {
        Some(Rule::X0)
    } else if let Some(rule) = call_rule(last, line) {
        Some(rule)
    } else if let Some(rule) = secret_rule(line) {
        Some(rule)
    } else if is_illegal(line) {
        Some(Rule::I1)
    } else {
        None
    }
}

// How a call of the ROM is entered, left and gone through.
#[tactic(auto, unfolding(part_definitions::specs::MonitorRule::atomicity_rule))]
fn call_rule(last: Option<u16>, line: &TraceLine) -> Option<Rule>
    ensures { result ≡ atomicity_rule last (signals_in line.now) }
{
    if is_rom(line.pc) {
        call_rule_within(last, line)
    } else if was_within(last) && line.kind != Kind::Boot {
        Some(Rule::A1)
    } else {
        None
    }
}

#[tactic(auto, unfolding(part_definitions::specs::MonitorRule::atomicity_rule))]
fn call_rule_within(last: Option<u16>, line: &TraceLine) -> Option<Rule>
    requires { in_rom line.now.pc ≡ true }
    ensures { result ≡ atomicity_rule last (signals_in line.now) }
{
    if line.irq {
        Some(Rule::A3)
    } else if line.pc != 0xA000 && !was_within(last) {
        Some(Rule::A2)
    } else if line.pc == 0xBFFE && returns_through_secret(line.cpu) {
        Some(Rule::A4)
    } else {
        None
    }
}

// Who comes to the key and the exclusive stack, and where the ROM writes.
fn secret_rule(line: &TraceLine) -> Option<Rule>
    ensures { result ≡ key_rule (signals_in line.now) }
{
    if is_rom(line.pc) {
        secret_rule_within(line)
    } else {
        secret_rule_without(line)
    }
}

#[tactic(auto, unfolding(part_definitions::specs::MonitorRule::key_rule))]
fn secret_rule_within(line: &TraceLine) -> Option<Rule>
    requires { in_rom line.now.pc ≡ true }
    ensures { result ≡ key_rule (signals_in line.now) }
{
    if writes_elsewhere(line.cpu) {
        Some(Rule::K3)
    } else if KEY.meets(line.dma) {
        Some(Rule::K4)
    } else if STACK.meets(line.dma) {
        Some(Rule::K5)
    } else if line.dma.is_some() {
        Some(Rule::K6)
    } else {
        None
    }
}

#[tactic(auto, unfolding(part_definitions::specs::MonitorRule::key_rule))]
fn secret_rule_without(line: &TraceLine) -> Option<Rule>
    requires { in_rom line.now.pc ≡ false }
    ensures { result ≡ key_rule (signals_in line.now) }
{
    if KEY.meets(line.cpu) && !is_write(line.cpu) {
        Some(Rule::K1)
    } else if STACK.meets(line.cpu) {
        Some(Rule::K2)
    } else if KEY.meets(line.dma) {
        Some(Rule::K4)
    } else if STACK.meets(line.dma) {
        Some(Rule::K5)
    } else {
        None
    }
}

// The step before was in the ROM, and not at its exit.
fn was_within(last: Option<u16>) -> bool
    ensures { result ≡ was_inside last }
{
    match last {
        None => false,
        Some(pc) => is_rom(pc) && pc != 0xBFFE,
    }
}

pub fn is_write(access: Option<Access>) -> bool
    ensures { result ≡ some_writes access }
{
    match access {
        Some(Access::Write(..)) => true,
        _ => false,
    }
}

// A read of the key or of the exclusive stack.
fn returns_through_secret(access: Option<Access>) -> bool
    ensures { result ≡ (some_reads access
        && (some_touches access key_region || some_touches access stack_region)) }
{
    match access {
        Some(Access::Read(..)) => KEY.meets(access) || STACK.meets(access),
        _ => false,
    }
}

// A write with a byte outside the exclusive stack and the MAC. Each of them is of whole words, and
// they do not touch.
fn writes_elsewhere(access: Option<Access>) -> bool
    ensures { result ≡ (some_writes access && leaves_stack_and_mac access) }
{
    match access {
        Some(access @ Access::Write(..)) => !(STACK.holds(access) || MAC.holds(access)),
        _ => false,
    }
}

// An opcode fetch of an illegal word.
fn is_illegal(line: &TraceLine) -> bool
    ensures { result ≡ breaks_i1 (signals_in line.now) }
{
    line.kind == Kind::Cpu
        && line.cpu == Some(Access::Fetch(line.pc))
        && decode(line.word).is_none()
}
