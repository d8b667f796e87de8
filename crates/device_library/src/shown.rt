ghost use Rattle.std.specs.Prelude.{◌≡◌, ◌≤◌, ◌<◌, length, take};
ghost use Rattle.input_files.specs.declared.status.Status.TheVariants.{WriteFault};
ghost use Rattle.device_library.specs.Shown.{IsShown, IsTold};

use input_files::Status;
use std::alloc::Global;

// Puts a text into a piece, as far as there is room for it, and gives its length.
fn copy_text(text: &[u8], piece: &mut [u8]) -> usize
    ensures count { result ≡ length text.now }
    ensures whole { result ≤ length piece.new → take result piece.new ≡ text.now }
    ensures first { length piece.new < result → piece.new ≡ take (length piece.new) text.now }
{
    let count = text.len().min(piece.len());
    piece[..count].copy_from_slice(&text[..count]);
    text.len()
}

fn show(text: &[u8], status: Status, piece: &mut [u8], count: &mut usize) -> Status
    ensures { IsShown text.now status piece.new count.new result }
{
    *count = copy_text(text, piece);
    if *count > piece.len() {
        Status::WriteFault
    } else {
        status
    }
}

/// Shows the line that the program has on standard error for this answer, as far as there is room
/// for it, and gives the answer back.
pub fn show_line(alloc: Global, status: Status, piece: &mut [u8], count: &mut usize) -> Status
    ensures same { result ≡ status }
    ensures fits { count.new ≤ length piece.new }
{
    *count = 0;
    if let Ok(line) = format!(in alloc; "{status}") {
        *count = copy_text(line.as_bytes(), piece).min(piece.len());
    }
    status
}

/// Tells of a run that ended so, of whose text these bytes were kept.
pub fn tell(
    alloc: Global,
    status: Status,
    text: &[u8],
    piece: &mut [u8],
    count: &mut usize,
) -> Status
    ensures told { IsTold status text.now piece.new count.new result }
    ensures fits { ¬ (result ≡ WriteFault) → count.new ≤ length piece.new }
{
    match status {
        Status::Done => show(text, Status::Done, piece, count),
        Status::Rejected => show(text, Status::Rejected, piece, count),
        // There was no memory for more of the text.
        Status::WriteFault => show_line(alloc, Status::Memory, piece, count),
        refused => show_line(alloc, refused, piece, count),
    }
}
