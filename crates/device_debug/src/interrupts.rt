/// What may interrupt a device on its way.
pub trait Interrupts {
    ghost use Rattle.std.specs.Prelude.{◌≡◌, ◌+◌, ℕ, Option, option_map};
    ghost use Rattle.word_arith.specs.Number.{bit_of};

    /// How many come yet, if that is told.
    ghost left: { Self → Option ℕ };

    /// Whether an interrupt has come since this was asked last. It is asked every some ten thousand
    /// steps while a device is on its way, and must not wait.
    fn have_come(&mut self) -> bool
        ensures { left self.old ≡ option_map (λ yet. bit_of result + yet) (left self.new) };
}
