ghost use Rattle.std.specs.Prelude.{◌≡◌, ◌≤◌, length};
ghost use Rattle.debug_session.specs.{Command.{command_of, word_command, begun_command, begins_with_any, other_command, memory_command, monitor_command, stop_command, stop_numbered, watch_kind_of, breakpoint_command, watch_command}, Number.two_numbers, Request.request_in};

use crate::action::{read_action, read_first_action, rest_behind};
use crate::number::{cut_at_comma, number_of, two_numbers};
use crate::request::{Request, read_request};
use crate::stop_change::StopChange;
use crate::watch::{Watch, WatchKind};

/// On which way a debugger goes.
#[derive(Clone, Copy, Debug, PartialEq, Eq)]
pub enum Way {
    Ahead,
    Back,
}

/// How far a device goes.
#[derive(Clone, Copy, Debug, PartialEq, Eq)]
pub enum Going {
    /// To the first cause.
    On,
    /// Also over an instruction of no higher level.
    Step,
    /// Likewise, to a PC outside of a range, from the first address to before the second.
    Range(u32, u32),
}

/// What a packet asks for.
#[derive(Clone, Copy, Debug, PartialEq, Eq)]
pub enum Command {
    /// What can be asked for.
    Supported,
    /// Why the device stands.
    LastStop,
    Attached,
    Registers,
    /// So many bytes from an address on.
    Memory(u32, u32),
    /// A breakpoint or a watch is set, or taken back.
    Change(StopChange),
    /// Which actions there are.
    Actions,
    Go(Way, Going),
    /// A command of the user.
    Monitor(Request),
    Detach,
    Kill,
    /// It asks for what can't be had, or is damaged.
    Refused,
    Unknown,
}

/// What the body of a packet asks for.
pub fn read_command(body: &[u8]) -> Command
    requires { length body.now ≤ 4096 }
    ensures { result ≡ command_of body.now }
{
    match word_command(body) {
        Some(command) => command,
        None => begun_command(body),
    }
}

// The command of a body that is one word.
fn word_command(body: &[u8]) -> Option<Command>
    ensures { result ≡ word_command body.now }
{
    if body == b"?".as_slice() {
        Some(Command::LastStop)
    } else if body == b"g".as_slice() {
        Some(Command::Registers)
    } else if body == b"bs".as_slice() {
        Some(Command::Go(Way::Back, Going::Step))
    } else if body == b"bc".as_slice() {
        Some(Command::Go(Way::Back, Going::On))
    } else if body == b"D".as_slice() {
        Some(Command::Detach)
    } else if body == b"k".as_slice() {
        Some(Command::Kill)
    } else if body == b"vCont?".as_slice() {
        Some(Command::Actions)
    } else if body == b"qAttached".as_slice() {
        Some(Command::Attached)
    } else if body.starts_with(b"qSupported") {
        Some(Command::Supported)
    } else {
        None
    }
}

// The command of a body by how it begins.
fn begun_command(body: &[u8]) -> Command
    requires { length body.now ≤ 4096 }
    ensures { result ≡ begun_command body.now }
{
    if let Some(rest) = rest_behind(b"m", body) {
        read_memory(rest)
    } else if let Some(rest) = rest_behind(b"Z", body) {
        read_stop(true, rest)
    } else if let Some(rest) = rest_behind(b"z", body) {
        read_stop(false, rest)
    } else if let Some(rest) = rest_behind(b"vCont;", body) {
        read_first_action(rest)
    } else if let Some(rest) = rest_behind(b"qRcmd,", body) {
        read_monitor(rest)
    } else {
        other_command(body)
    }
}

fn other_command(body: &[u8]) -> Command
    ensures { result ≡ other_command body.now }
{
    if begins_with_any(b"csCS", body) {
        read_action(body)
    } else if begins_with_any(b"GPM", body) {
        Command::Refused
    } else {
        Command::Unknown
    }
}

fn begins_with_any(letters: &[u8], body: &[u8]) -> bool
    ensures { result ≡ begins_with_any letters.now body.now }
{
    match body {
        [] => false,
        [first, ..] => letters.contains(first),
    }
}

fn read_memory(text: &[u8]) -> Command
    ensures { result ≡ memory_command (two_numbers text.now) }
{
    match two_numbers(text) {
        Some((first, size)) => Command::Memory(first, size),
        None => Command::Refused,
    }
}

fn read_monitor(digits: &[u8]) -> Command
    requires { length digits.now ≤ 4096 }
    ensures { result ≡ monitor_command (request_in digits.now) }
{
    match read_request(digits) {
        Some(request) => Command::Monitor(request),
        None => Command::Refused,
    }
}

// Of a kind, a place and a size.
fn read_stop(sets: bool, text: &[u8]) -> Command
    ensures { result ≡ stop_command sets text.now }
{
    let (kind, rest) = cut_at_comma(text);
    let Some(kind) = number_of(kind) else {
        return Command::Refused;
    };
    match two_numbers(rest) {
        Some((place, size)) => stop_of(sets, kind, place, size),
        None => Command::Refused,
    }
}

fn stop_of(sets: bool, kind: u32, place: u32, size: u32) -> Command
    ensures { result ≡ stop_numbered sets kind place size }
{
    if kind > 4 {
        return Command::Unknown;
    }
    if place > 0xFFFF {
        return Command::Refused;
    }
    let first = place as u16;
    if kind < 2 {
        return breakpoint_command(sets, first);
    }
    let kind = kind_of(kind);
    watch_command(sets, Watch { kind, first, size })
}

fn kind_of(kind: u32) -> WatchKind
    ensures { result ≡ watch_kind_of kind }
{
    match kind {
        2 => WatchKind::Write,
        3 => WatchKind::Read,
        _ => WatchKind::Either,
    }
}

fn breakpoint_command(sets: bool, place: u16) -> Command
    ensures { result ≡ breakpoint_command sets place }
{
    if sets {
        Command::Change(StopChange::SetBreakpoint(place))
    } else {
        Command::Change(StopChange::ClearBreakpoint(place))
    }
}

// No watch is of no bytes.
fn watch_command(sets: bool, watch: Watch) -> Command
    ensures { result ≡ watch_command sets watch }
{
    if watch.size == 0 {
        Command::Refused
    } else if sets {
        Command::Change(StopChange::SetWatch(watch))
    } else {
        Command::Change(StopChange::ClearWatch(watch))
    }
}
