ghost use Rattle.std.specs.Prelude.{◌≡◌, ℕ, List, Ok, Err};
ghost use Rattle.text_scan.specs.declared.fault_at.FaultAt.{FaultAt};
ghost use Rattle.asm_text.specs.{declared.statement.Statement.Statement, Source.{IsSource, IsFaultOf, source_of}};

/// A text that is read is UTF-8, and each of its lines, read alone, says its statement.
pub fn statements_are_of_the_lines()
    ensures { (text : List ℕ) (statements : List Statement)
        → source_of text ≡ Ok statements
        → IsSource text statements }
{}

/// A text that is refused is not UTF-8, with the fault of its first such line, or it is UTF-8, with
/// the fault of the first line that has no reading.
pub fn fault_is_of_the_first_faulty_line()
    ensures { (text : List ℕ) (fault : FaultAt)
        → source_of text ≡ Err fault
        → IsFaultOf text fault }
{}
