ghost use Rattle.std.specs.{Prelude.{◌≡◌, ◌∷◌, ◌<◌, ◌≤◌, ℕ, List, length, drop, slice_index, true, false, Ok, Err, IfOk, IfErr, OnOk}, Iterator.{YieldsFirstRef, item_count}};
ghost use Rattle.text_scan.specs.Word.{is_blank, words_of, next_word, keyword_of, end_of, is_passed_over};

use crate::fault_kind::FaultKind;
use std::marker::Model;

/// The words of a line, which are separated by spaces and tabs.
#[derive(Debug, Drop)]
pub struct Words<'a> {
    rest: &'a [u8],
}

// Seen as the words that are left.
impl<'a> Model for Words<'a> {
    ghost Value = { List (List ℕ) };

    ghost view = { λ it. words_of it.rest.now };
}

impl<'a> Words<'a> {
    pub fn new(line: &'a [u8]) -> Words<'a>
        ensures { result ≡ words_of line.now }
    {
        Words { rest: line }
    }

    /// The next word; `Missing` where there is none.
    pub fn word(&mut self) -> Result<&'a [u8], FaultKind>
        ensures word { IfOk result (λ word. next_word self.old ≡ Ok (word.now, self.new)) }
        ensures missing { IfErr result (λ kind. next_word self.old ≡ Err kind) }
        ensures left { self.new ≡ drop 1 self.old }
    {
        self.next().ok_or(FaultKind::Missing)
    }

    /// Passes the next word, whatever it is. One that is not the keyword is `Word`, none is
    /// `Missing`.
    pub fn keyword(&mut self, keyword: &[u8]) -> Result<(), FaultKind>
        ensures word { OnOk result (keyword_of keyword.now self.old ≡ Ok self.new) }
        ensures fault { IfErr result (λ kind. keyword_of keyword.now self.old ≡ Err kind) }
        ensures left { self.new ≡ drop 1 self.old }
    {
        if self.word()? == keyword {
            Ok(())
        } else {
            Err(FaultKind::Word)
        }
    }

    /// What is left of the line.
    pub fn rest(&self) -> &'a [u8]
        ensures { words_of result.now ≡ self.now }
    {
        self.rest
    }

    /// `Extra` where there is a further word, which is passed.
    pub fn end(&mut self) -> Result<(), FaultKind>
        ensures end { result ≡ end_of self.old }
        ensures left { self.new ≡ drop 1 self.old }
    {
        match self.next() {
            None => Ok(()),
            Some(_) => Err(FaultKind::Extra),
        }
    }
}

/// Whether a line says nothing: it has no word, or its first word begins with `#`.
pub fn is_passed_over(line: &[u8]) -> bool
    ensures { result ≡ is_passed_over line.now }
{
    match Words::new(line).next() {
        None => true,
        Some(word) => word.first() == Some(&b'#'),
    }
}

impl<'a> Iterator for Words<'a> {
    type Item = &'a [u8];

    ghost next_gives = { YieldsFirstRef (λ rest. rest) };

    ghost remaining = { item_count (λ rest. rest) };

    fn next(&mut self) -> Option<&'a [u8]> {
        let line = after_blanks(self.rest);
        if line.is_empty() {
            self.rest = line;
            return None;
        }
        let (word, rest) = first_word(line);
        self.rest = rest;
        Some(word)
    }
}

// What stands from the first word on.
fn after_blanks(line: &[u8]) -> &[u8]
    ensures words { words_of result.now ≡ words_of line.now }
    ensures word { 0 < length result.now → is_blank (slice_index result.now 0) ≡ false }
{
    &line[blanks_len(line)..]
}

// The number of blanks before the first other byte, or of all bytes where there is none.
fn blanks_len(line: &[u8]) -> usize
    ensures within { result ≤ length line.now }
    ensures before { (k : ℕ) → k < result → is_blank (slice_index line.now k) ≡ true }
    ensures end { result < length line.now → is_blank (slice_index line.now result) ≡ false }
{
    line.iter()
        .position(|byte| !is_blank(*byte))
        .unwrap_or(line.len())
}

// The word at the beginning of a line, and what follows it.
#[tactic(auto, using(crate::proofs::PlainWords::words_cut))]
fn first_word(line: &[u8]) -> (&[u8], &[u8])
    requires some { 0 < length line.now }
    requires word { is_blank (slice_index line.now 0) ≡ false }
    ensures { words_of line.now ≡ result.0.now ∷ words_of result.1.now }
{
    line.split_at(word_len(line))
}

// The number of bytes before the first blank, or of all where there is none.
fn word_len(line: &[u8]) -> usize
    ensures within { result ≤ length line.now }
    ensures before { (k : ℕ) → k < result → is_blank (slice_index line.now k) ≡ false }
    ensures end { result < length line.now → is_blank (slice_index line.now result) ≡ true }
{
    line.iter()
        .position(|byte| is_blank(*byte))
        .unwrap_or(line.len())
}

fn is_blank(byte: u8) -> bool
    ensures { result ≡ is_blank byte }
{
    matches!(byte, b' ' | b'\t')
}
