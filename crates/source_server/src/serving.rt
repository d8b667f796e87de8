ghost use Rattle.std.specs.Prelude.{◌≡◌, ◌<◌, ◌≤◌, [], length, take, IfOk, IfSome, OnErr};
ghost use Rattle.outside_edge.specs.{Sink.CountsFaults, Source.IsAsked};
ghost use Rattle.source_server.specs.{Responder.Moment, Serving.Serves, Taken.Gave};

use crate::responder::Responder;
use crate::served::Served;
use outside_edge::{Failed, Source};

/// The most bytes that are taken of a source.
pub const MOST_INPUT: u64 = 1_073_741_824;

// The most bytes that are taken at once.
const PIECE: usize = 65_536;

/// Has the bytes of a source answered, a piece at a time: all that is due to one is put before more
/// is taken.
pub fn serve<R: Source, E, T: Responder<E>>(
    source: &mut R,
    responder: &mut T,
    edge: &mut E,
) -> Served<T::Own>
    ensures serves { (start : T.Start)
        → (T.promise start).answered (record { responder = responder.old; edge = edge.old }) []
        → Serves R.Source (T.promise start) source.old source.new
        (record { responder = responder.new; edge = edge.new }) result }
    ensures source_faults { R.faults source.old ≤ R.faults source.new }
    ensures grows { (first : Moment T E)
        → T.since first (record { responder = responder.old; edge = edge.old })
        → T.since first (record { responder = responder.new; edge = edge.new }) }
{
    let mut piece = [0; PIECE];
    let mut room = MOST_INPUT;
    while room > 0 {
        let count = match take_piece(source, &mut piece, room) {
            Ok(0) => return Served::after(responder.end(edge)),
            Ok(count) => count,
            Err(Failed) => return Served::ReadFault,
        };
        match responder.answer(&piece[..count], edge) {
            Ok(()) => room -= count as u64,
            Err(halt) => return Served::of(halt),
        }
    }
    Served::Spent
}

// Takes what comes next into the beginning of a piece, no more than there is room for.
fn take_piece<R: Source>(source: &mut R, piece: &mut [u8], room: u64) -> Result<usize, Failed>
    requires { (0 < length piece.old) × (0 < room) }
    ensures within { IfOk result (λ n. n ≤ length piece.new) }
    ensures few { IfOk result (λ n. n ≤ room) }
    ensures gave { IfOk result (λ n. Gave R.Source source.old source.new (take n piece.new)) }
    ensures ends { IfOk result (λ n. n ≡ 0 → IfSome (R.left source.new) (λ left. left ≡ [])) }
    ensures asked { IfOk result (λ n. IsAsked R.asked source.old source.new n) }
    ensures kept { OnErr result (Gave R.Source source.old source.new []) }
    ensures missed { OnErr result (IsAsked R.asked source.old source.new 0) }
    ensures counts { CountsFaults R.faults source.old source.new result }
{
    let most = (piece.len() as u64).min(room) as usize;
    source.take(&mut piece[..most])
}
