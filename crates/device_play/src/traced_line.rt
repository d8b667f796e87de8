ghost use Rattle.std.specs.Prelude.{◌≡◌, Some, option_map};
ghost use Rattle.device_trace.specs.Trace.{last_record, last_signals, trace};
ghost use Rattle.device_core.specs.Device.{HasStepped, OfLive};
ghost use Rattle.trace_files.specs.{LineReadBack.IsPrintable, TraceText.last_line};
ghost use Rattle.device_play.specs.{TraceLine.{proposal_shown, value_shown, word_read}, Watching.PlaysSome};

use device_core::{Live, blank_access, blank_value};
use device_types::{Access, TraceFlag};
use hmac_core::Digest32;
use trace_files::TraceLine;

// Of what an access read: the word of a fetch, 0 for other accesses.
fn word_read(access: Option<Access>, value: u16) -> u16
    ensures { result ≡ word_read access value }
{
    match access {
        Some(Access::Fetch(_)) => value,
        _ => 0,
    }
}

// Of the last step, once a step was made, whether the script asked for a reset, and the word that
// its proposed fetch would read, blanked as the value is that it read. In a step that was made the
// script did not ask, and the fetch read its word.
fn proposal_of_last<D: Digest32, G: TraceFlag>(live: &Live<D, G>, value: u16) -> (bool, u16)
    requires { HasStepped live.now }
    ensures { OfLive D.hash G.flag live.now (λ start play.
        option_map value_shown (last_record (trace start play)) ≡ Some value
        → option_map proposal_shown (last_signals start play) ≡ Some result) }
{
    let entry = live.entry();
    match live.refused_signals() {
        Some(now) => (now.script_reset, blank_value(entry.cpu, now.word)),
        None => (false, word_read(entry.cpu, value)),
    }
}

/// The line of the last step, once a step was made, with the secrets blanked. What a refused fetch
/// would have read is one too.
pub fn last_trace_line<D: Digest32, G: TraceFlag>(live: &Live<D, G>) -> TraceLine
    requires stepped { HasStepped live.now }
    requires plays { PlaysSome D.hash G.flag live.now }
    ensures line { OfLive D.hash G.flag live.now (λ start play.
        last_line start play ≡ Some result) }
    ensures printable { IsPrintable result }
{
    let entry = live.entry();
    let value = blank_value(entry.cpu, entry.value);
    let (asked, word) = proposal_of_last(live, value);
    TraceLine {
        kind: entry.kind,
        pc: entry.pc,
        cpu: blank_access(entry.cpu),
        dma: blank_access(entry.dma),
        irq: entry.irq,
        asked,
        word,
        value,
        dma_value: blank_value(entry.dma, entry.dma_value),
        bounds: live.bounds_before(),
        exec: live.exec(),
        rule: entry.reset,
    }
}
