ghost use Rattle.std.specs.{Prelude.{◌≡◌, ◌∷◌, ◌+◌, ◌<◌, ◌≤◌, ◌^◌, ◌≢◌, ℕ, List, length, slice_index}, Iterator.{YieldsFirstBy, item_count}, Str.Lines.{lines, strip_carriage_return}};
ghost use Rattle.text_scan.specs.LineFold.{numbered_lines, text_lines};

use memchr::memchr;
use std::marker::Model;

/// The lines of a text with their numbers from 1. Lines end at LF or CRLF, and the last may have
/// no end.
#[derive(Debug, Drop)]
pub struct Lines<'a> {
    rest: &'a [u8],
    last: u64,
}

// Seen as the lines that are left, with their numbers.
impl<'a> Model for Lines<'a> {
    ghost Value = { List (ℕ × List ℕ) };

    ghost view = { λ it. numbered_lines (it.last + 1) (lines it.rest.now) };

    ghost invariant = { λ it. it.last + length it.rest.now < 2 ^ 64 };
}

impl<'a> Lines<'a> {
    pub fn new(text: &'a [u8]) -> Lines<'a>
        ensures { result ≡ text_lines text.now }
    {
        Lines {
            rest: text,
            last: 0,
        }
    }
}

impl<'a> Iterator for Lines<'a> {
    type Item = (u64, &'a [u8]);

    ghost next_gives = { YieldsFirstBy (λ item. (item.0, item.1.now)) (λ rest. rest) };

    ghost remaining = { item_count (λ rest. rest) };

    fn next(&mut self) -> Option<(u64, &'a [u8])> {
        if self.rest.is_empty() {
            return None;
        }
        let (line, rest) = first_line(self.rest);
        self.rest = rest;
        self.last += 1;
        Some((self.last, line))
    }
}

/// How many lines a text has.
pub fn line_count(text: &[u8]) -> u64
    ensures { result ≡ length (lines text.now) }
{
    let mut count = 0;
    for (number, _line) in Lines::new(text) {
        count = number;
    }
    count
}

// The first line of a text without its end, and what follows it.
fn first_line(text: &[u8]) -> (&[u8], &[u8])
    requires { 0 < length text.now }
    ensures first { lines text.now ≡ result.0.now ∷ lines result.1.now }
    ensures shorter { length result.1.now < length text.now }
{
    let end = line_len(text);
    if end == text.len() {
        return (text, &[]);
    }
    (without_return(&text[..end]), &text[end + 1..])
}

// The number of bytes before the first LF, or of all where there is none.
fn line_len(text: &[u8]) -> usize
    ensures within { result ≤ length text.now }
    ensures before { (k : ℕ) → k < result → slice_index text.now k ≢ 10 }
    ensures end { result < length text.now → slice_index text.now result ≡ 10 }
{
    memchr(b'\n', text).unwrap_or(text.len())
}

/// The line without the carriage return at its end, where it has one.
pub fn without_return(line: &[u8]) -> &[u8]
    ensures { result.now ≡ strip_carriage_return line.now }
{
    match line {
        [line @ .., b'\r'] => line,
        _ => line,
    }
}
