use crate::halt::Halt;

/// One who answers bytes as they come, at an edge where its answers go.
pub trait Responder<E> {
    ghost use Rattle.std.specs.Prelude.{ℕ, List};
    ghost use Rattle.source_server.specs.Responder.{Answers, Ends, Moment, Promise};

    /// The ends of its own.
    type Own: Copy;

    /// What it may answer from.
    ghost Start: { Type 0 };

    /// What it promises from there.
    ghost promise: { Start → Promise (Moment Self E) Self.Own };

    /// What holds from one moment to a later one, whatever came between.
    ghost since: { Moment Self E → Moment Self E → Type 0 };

    /// Answers what comes next: when it is back, all that is due was put.
    fn answer(&mut self, piece: &[u8], edge: &mut E) -> Result<(), Halt<Self::Own>>
        ensures answers { (start : Start) (before : List ℕ)
            → (promise start).answered (record { responder = self.old; edge = edge.old }) before
            → Answers (promise start) (record { responder = self.new; edge = edge.new }) before
            piece.now result }
        ensures grows { (first : Moment Self E)
            → since first (record { responder = self.old; edge = edge.old })
            → since first (record { responder = self.new; edge = edge.new }) };

    /// Answers what is due at the end of the input.
    fn end(&mut self, edge: &mut E) -> Result<(), Halt<Self::Own>>
        ensures ends { (start : Start) (bytes : List ℕ)
            → (promise start).answered (record { responder = self.old; edge = edge.old }) bytes
            → Ends (promise start) (record { responder = self.new; edge = edge.new }) bytes
            result }
        ensures grows { (first : Moment Self E)
            → since first (record { responder = self.old; edge = edge.old })
            → since first (record { responder = self.new; edge = edge.new }) };
}
