use crate::halt::Halt;

/// One who answers lines as they come, at an edge where its answers go.
pub trait LineResponder<E> {
    ghost use Rattle.std.specs.Prelude.{◌≡◌, ℕ, List, ◌∷◌, option_map};
    ghost use Rattle.source_server.specs.{HeldLine.short_line, Lines.{LinePromise, Settles, Tells}, Responder.Moment};

    /// The ends of its own.
    type Own: Copy;

    /// What it may answer from.
    ghost Start: { Type 0 };

    /// What it promises from there.
    ghost promise: { Start → LinePromise (Moment Self E) Self.Own };

    /// What holds from one moment to a later one, whatever came between.
    ghost since: { Moment Self E → Moment Self E → Type 0 };

    /// Answers a line; `None` is one that is too long. What is due may be held back, but where it
    /// stops.
    fn answer(&mut self, line: Option<&[u8]>, edge: &mut E) -> Result<(), Halt<Self::Own>>
        ensures answers { (start : Start) (earlier : List (List ℕ)) (bytes : List ℕ)
            → (promise start).told (record { responder = self.old; edge = edge.old }) earlier
            → option_map (λ line. line.now) line.entry ≡ short_line bytes
            → Tells (promise start) (record { responder = self.new; edge = edge.new })
            (bytes ∷ earlier) result }
        ensures grows { (first : Moment Self E)
            → since first (record { responder = self.old; edge = edge.old })
            → since first (record { responder = self.new; edge = edge.new }) };

    /// Puts what was held back.
    fn settle(&mut self, edge: &mut E) -> Result<(), Halt<Self::Own>>
        ensures settles { (start : Start) (lines : List (List ℕ))
            → (promise start).told (record { responder = self.old; edge = edge.old }) lines
            → Settles (promise start) (record { responder = self.new; edge = edge.new }) lines
            result }
        ensures grows { (first : Moment Self E)
            → since first (record { responder = self.old; edge = edge.old })
            → since first (record { responder = self.new; edge = edge.new }) };
}
