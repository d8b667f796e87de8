ghost use Rattle.std.specs.{Prelude.{◌≡◌, codes, true}, Fmt.decimal};
ghost use Rattle.text_round_trip.specs.{Example.labelled_move, StatementText.statement_text, Writable.is_writable};

/// A label, a byte instruction, a sum with a name, and an index.
pub fn move_is_written()
    ensures text { statement_text decimal labelled_move ≡ codes "loop: mov.b #-1+base,18(r4)" }
    ensures writable { is_writable labelled_move ≡ true }
{}
