ghost use Rattle.std.specs.{Prelude.{◌≡◌, ◌≤◌, length}, Str.{IsUtf8, Lines.lines}};
ghost use Rattle.outside_edge.specs.File.{named_files};
ghost use Rattle.input_files.specs.{CommandLine.texts, declared.status.Status.TheVariants.{Words, WriteFault}};
ghost use Rattle.device_cli.specs.Command.{row_of};
ghost use Rattle.device_library.specs.Call.{IsCall, files_named};

use crate::given_files::given_files;
use crate::kept_text::KeptText;
use crate::shown::{show_line, tell};
use crate::word_list::words_in;
use device_cli::run::run;
use input_files::Status;
use outside_edge::NeverFailShelf;
use std::alloc::{AllocError, Global};

fn run_words(
    alloc: Global,
    words: &[String],
    files: Vec<(String, Vec<u8>)>,
    piece: &mut [u8],
    count: &mut usize,
) -> Status
    ensures call { IsCall (named_files files.items) (row_of (texts words.now)) piece.new count.new
        result }
    ensures fits { ¬ (result ≡ WriteFault) → count.new ≤ length piece.new }
{
    let mut shelf = NeverFailShelf::new(files, usize::MAX);
    let mut text = KeptText::new(alloc);
    let status = run(alloc, words, &mut shelf, &mut text);
    tell(alloc, status, text.as_bytes(), piece, count)
}

fn run_text(
    alloc: Global,
    words: &str,
    files: Vec<(String, Vec<u8>)>,
    piece: &mut [u8],
    count: &mut usize,
) -> Status
    ensures call { IsCall (named_files files.items) (row_of (lines words.now)) piece.new count.new
        result }
    ensures fits { ¬ (result ≡ WriteFault) → count.new ≤ length piece.new }
{
    match words_in(alloc, words) {
        Ok(words) => run_words(alloc, &words, files, piece, count),
        Err(AllocError) => show_line(alloc, Status::Memory, piece, count),
    }
}

/// Runs a command line, whose words stand one a line, over files in memory, and puts its text into
/// a piece.
pub fn call(
    alloc: Global,
    words: &[u8],
    image: &[u8],
    script: &[u8],
    key: &[u8],
    other: &[u8],
    piece: &mut [u8],
    count: &mut usize,
) -> Status
    ensures call { IsUtf8 words.now
        → IsCall (files_named image.now script.now key.now other.now) (row_of (lines words.now))
        piece.new count.new result }
    ensures unread { ¬ (IsUtf8 words.now) → result ≡ Words }
    ensures fits { ¬ (result ≡ WriteFault) → count.new ≤ length piece.new }
{
    match std::str::from_utf8(words) {
        Ok(words) => match given_files(alloc, image, script, key, other) {
            Ok(files) => run_text(alloc, words, files, piece, count),
            Err(AllocError) => show_line(alloc, Status::Memory, piece, count),
        },
        Err(_) => show_line(alloc, Status::Words, piece, count),
    }
}
