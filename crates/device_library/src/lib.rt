//! The commands of the device for programs in other languages: a call is given the words of a
//! command line and its files in memory, and gives back what the program prints and its exit code.
//!
//! [`device_run`] is the one export; `include/device.h` declares it for C.
#![tactic(auto)]

ghost use Rattle.std.specs.{Prelude.{◌≡◌, ◌≤◌, length}, Str.{IsUtf8, Lines.lines}};
ghost use Rattle.input_files.specs.Status.{EndsAs};
ghost use Rattle.device_cli.specs.Command.{row_of};
ghost use Rattle.device_library.specs.Call.{IsCall, files_named};

mod call;
mod given_files;
mod kept_text;
mod shown;
mod word_list;

use crate::call::call;
use std::alloc::Global;

/// Runs a command line, whose words stand one a line, over files by the names `image`, `script`,
/// `key` and `other`, and gives the exit code.
///
/// With 0 or 1 the first `count` bytes of `piece` are the text. With 5 it is longer than `piece`,
/// which is full of its first bytes, and `count` is its length. With every other code the first
/// `count` bytes of `piece` are the line that the program has on standard error, as far as there is
/// room for it.
#[unsafe(no_mangle)]
pub extern "C" fn device_run(
    alloc: Global,
    words: &[u8],
    image: &[u8],
    script: &[u8],
    key: &[u8],
    other: &[u8],
    piece: &mut [u8],
    count: &mut usize,
) -> u8
    ensures call { IsUtf8 words.now
        → EndsAs result (IsCall (files_named image.now script.now key.now other.now)
        (row_of (lines words.now)) piece.new count.new) }

    // Words that are no UTF-8 are no command.
    ensures unread { ¬ (IsUtf8 words.now) → result ≡ 2 }

    // But for a text that is longer than the piece, all that is told stands in it.
    ensures fits { ¬ (result ≡ 5) → count.new ≤ length piece.new }
{
    call(alloc, words, image, script, key, other, piece, count).code()
}
