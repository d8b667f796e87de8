ghost use Rattle.std.specs.Prelude.{◌≡◌, Some};
ghost use Rattle.device_trace.specs.Text.{byte_sent_in};
ghost use Rattle.device_core.specs.Device.{HasStepped, OfLive};
ghost use Rattle.trace_files.specs.WaveSamples.{byte_received, byte_received_in, last_ports, last_sample, play_state};
ghost use Rattle.device_play.specs.Watching.{PlaysSome};

use crate::traced_line::last_trace_line;
use device_core::Live;
use device_peripherals::{byte_sent, takes_byte};
use device_types::{Access, BusRecord, TraceFlag};
use hmac_core::Digest32;
use trace_files::{Ports, Sample, State};
use word_arith::Size;

// The byte of a read that takes one from the serial port, 0 where none waited.
fn byte_received(place: u16, size: Size, value: u16) -> Option<u8>
    ensures { result ≡ byte_received place size value }
{
    if takes_byte(place, size) {
        Some((value % 0x100) as u8)
    } else {
        None
    }
}

// The bytes that a step sent and received by the serial port.
fn serial_bytes(entry: &BusRecord) -> (Option<u8>, Option<u8>)
    ensures { result ≡ (byte_sent_in entry.now, byte_received_in entry.now) }
{
    let value = entry.value;
    match (entry.reset, entry.cpu) {
        (None, Some(Access::Fetch(place))) => (None, byte_received(place, Size::Word, value)),
        (None, Some(Access::Read(place, size))) => (None, byte_received(place, size, value)),
        (None, Some(Access::Write(place, size, number))) => (byte_sent(place, size, number), None),
        _ => (None, None),
    }
}

// The ports in the last step, once a step was made. It left the pins as its events set them.
fn last_ports<D: Digest32, G: TraceFlag>(live: &Live<D, G>) -> Ports
    requires { HasStepped live.now }
    ensures { OfLive D.hash G.flag live.now (λ start play.
        last_ports start play ≡ Some result) }
{
    let (sent, received) = serial_bytes(live.entry());
    Ports {
        pins: live.pins(),
        sent,
        received,
    }
}

// What no line tells of the device as it stands.
fn state<D: Digest32, G: TraceFlag>(live: &Live<D, G>) -> State
    ensures { OfLive D.hash G.flag live.now (λ start play. result ≡ play_state start play) }
{
    State {
        registers: *live.registers(),
        aux: live.aux(),
        timer_flag: live.timer_flag(),
    }
}

/// What a waveform shows of the last step, once a step was made.
pub fn last_wave_sample<D: Digest32, G: TraceFlag>(live: &Live<D, G>) -> Sample
    requires stepped { HasStepped live.now }
    requires plays { PlaysSome D.hash G.flag live.now }
    ensures { OfLive D.hash G.flag live.now (λ start play.
        last_sample start play ≡ Some result) }
{
    Sample {
        line: last_trace_line(live),
        ports: last_ports(live),
        state: state(live),
    }
}
