ghost use Rattle.std.specs.{Prelude.{◌≡◌, ℕ, List, IsTrue, Ok}, List.list_all};
ghost use Rattle.asm_text.specs.{declared.statement.Statement.Statement, Source.{line_statement, source_of}};
ghost use Rattle.text_round_trip.specs.{ReadBack.{AreNumerals, at_line, source_text, from_line}, StatementText.{Numerals, statement_text}, Writable.is_writable};

/// A statement that is written in a line is read back, whatever the number of the line: label,
/// mnemonic or directive, size, operands and expressions are the same, and names have the same
/// characters.
pub fn written_statement_is_read_back()
    ensures { (numerals : Numerals) (number : ℕ) (statement : Statement)
        → AreNumerals numerals
        → IsTrue (is_writable statement)
        → line_statement number (statement_text numerals statement)
        ≡ Ok (at_line number statement) }
{}

/// So a source that is written from statements is read as these, one in each line.
pub fn written_source_is_read_back()
    ensures { (numerals : Numerals) (all : List Statement)
        → AreNumerals numerals
        → IsTrue (list_all is_writable all)
        → source_of (source_text numerals all) ≡ Ok (from_line 1 all) }
{}
