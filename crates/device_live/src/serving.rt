ghost use Rattle.std.specs.Prelude.{◌≡◌, ◌≤◌, [], Some, Ok, codes};
ghost use Rattle.outside_edge.specs.Sink.{CountsFaults, Puts};
ghost use Rattle.source_server.specs.{declared.served.Served.TheVariants.Done, Serving.Serves};
ghost use Rattle.device_trace.specs.Start.{Start};
ghost use Rattle.device_core.specs.Device.{HeldStandsFor};
ghost use Rattle.device_live.specs.{Answer.standing_line, Faults.end_with, Life.Life, Living.LivingStandsFor, Conversation.life_promise};

use crate::living::Living;
use device_core::{Device, Held};
use device_types::TraceFlag;
use hmac_core::Digest32;
use outside_edge::{BufferedSink, Failed, Sink, Source};
use source_server::{HeldLine, Lines, Served, serve};
use std::alloc::{AllocError, Global};

/// Answers the lines of a source from power-on, and puts `end ..` at the end of the input. It gives
/// the sink back.
pub fn serve_lines<D: Digest32, G: TraceFlag, R: Source, W: Sink>(
    alloc: Global,
    device: Device<Held, D, G>,
    held: HeldLine,
    source: &mut R,
    sink: W,
) -> (Served<AllocError>, W)
    ensures serves { (start : Start) → HeldStandsFor D.hash G.flag device start []
        → held ≡ Some []
        → Serves R.Source (life_promise W.Sink start sink) source.old source.new result.1
        result.0 }
    ensures source_faults { R.faults source.old ≤ R.faults source.new }
    ensures sink_faults { W.faults sink ≤ W.faults result.1 }
{
    let mut lines = Lines::new(held, Living::new(alloc, device));
    let mut buffer = BufferedSink::new(sink);
    let served = serve(source, &mut lines, &mut buffer);
    let ended = put_end(served, &lines.into_responder(), &mut buffer);
    let (sink, flushed) = buffer.finish();
    (with_put(with_put(served, ended), flushed), sink)
}

// Puts `end ..` where all was answered.
fn put_end<D: Digest32, G: TraceFlag, W: Sink>(
    served: Served<AllocError>,
    living: &Living<D, G>,
    sink: &mut W,
) -> Result<(), Failed>
    ensures end { served ≡ Done → (start : Start) (life : Life)
        → LivingStandsFor D.hash G.flag living.now start life
        → Puts W.stands sink.old sink.new (standing_line (codes "end") start life) result }
    ensures other { ¬ (served ≡ Done) → (result ≡ Ok tt) × (sink.new ≡ sink.old) }
    ensures counts { CountsFaults W.faults sink.old sink.new result }
{
    match served {
        Served::Done => living.print_standing(b"end", sink),
        _ => Ok(()),
    }
}

// The end of a serving once what was due then was put, or was not.
fn with_put(served: Served<AllocError>, put: Result<(), Failed>) -> Served<AllocError>
    ensures { result ≡ end_with served put }
{
    match put {
        Ok(()) => served,
        Err(Failed) => Served::WriteFault,
    }
}
