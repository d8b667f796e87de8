ghost use Rattle.std.specs.Prelude.{◌≡◌, Bool, List, ℕ, Option};
ghost use Rattle.input_files.specs.CommandLine.{texts};
ghost use Rattle.device_cli.specs.{Row.Row, Unanswered.behind_all};

/// Whether the word `--all` stands in front of arguments, and the others.
pub fn split_all(arguments: &[String]) -> (bool, &[String])
    ensures { (row_with : Bool → List (List ℕ) → Option Row)
        → row_with result.0 (texts result.1.now) ≡ behind_all row_with (texts arguments.now) }
{
    match arguments {
        [first, others @ ..] if first.as_str() == "--all" => (true, others),
        _ => (false, arguments),
    }
}
