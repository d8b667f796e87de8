ghost use Rattle.std.specs.{Prelude.{◌≡◌, IfOk, map}, Str.Lines.lines};
ghost use Rattle.input_files.specs.CommandLine.{texts};

use std::alloc::{AllocError, Global};

fn lines_in(alloc: Global, text: &str) -> Result<Vec<&str>, AllocError>
    ensures { IfOk result (λ words. map (λ word. word.now) words.items ≡ lines text.now) }
{
    text.lines().collect(alloc)
}

/// The words of a command line that stand one a line.
pub fn words_in(alloc: Global, text: &str) -> Result<Vec<String>, AllocError>
    ensures { IfOk result (λ words. texts words.items ≡ lines text.now) }
{
    let mut words = Vec::new(alloc);
    for word in &lines_in(alloc, text)? {
        words.push(String::from_str(alloc, word)?)?;
    }
    Ok(words)
}
