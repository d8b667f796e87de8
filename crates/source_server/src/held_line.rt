ghost use Rattle.std.specs.Prelude.{◌≡◌, ◌↔◌, [], Some, IfOk, IsTrue, option_map};
ghost use Rattle.source_server.specs.HeldLine.{with_piece, ended_line, last_line, short_line};

use std::alloc::{AllocError, Global};
use std::marker::Model;
use text_scan::without_return;

/// The longest line that is read, without its end.
pub const LONGEST_LINE: usize = 65_536;

/// What came of a line whose end has not come. One byte more than the longest line is kept, since
/// its last may be the CR of its end; of a longer line it is only known that it is too long.
#[derive(Drop)]
pub struct HeldLine {
    bytes: Vec<u8>,
    is_over: bool,
}

impl Model for HeldLine {
    ghost use Rattle.std.specs.Prelude.{◌≤◌, ℕ, List, Option, Some, None, vec_len, vec_capacity, if◌then◌else◌};

    ghost Value = { Option (List ℕ) };

    ghost view = { λ held. if held.is_over then None else Some held.bytes.items };

    ghost invariant = { λ held. (vec_len held.bytes ≤ 65537) × (65537 ≤ vec_capacity held.bytes) };
}

impl HeldLine {
    /// The room for a line is taken here.
    pub fn new(alloc: Global) -> Result<HeldLine, AllocError>
        ensures { IfOk result (λ held. held ≡ Some []) }
    {
        let mut bytes = Vec::new(alloc);
        bytes.reserve_exact(LONGEST_LINE + 1)?;
        Ok(HeldLine {
            bytes,
            is_over: false,
        })
    }

    /// Takes what comes next.
    pub fn push(&mut self, piece: &[u8])
        ensures { self.new ≡ with_piece self.old piece.now }
    {
        if piece.len() > LONGEST_LINE + 1 - self.bytes.len() {
            self.is_over = true;
            return;
        }
        let Ok(()) = self.bytes.extend_from_slice(piece) else {
            unreachable!()
        };
    }

    pub fn clear(&mut self)
        ensures { self.new ≡ Some [] }
    {
        self.bytes.clear();
        self.is_over = false;
    }

    /// Whether nothing came yet.
    pub fn is_empty(&self) -> bool
        ensures { IsTrue result ↔ (self.now ≡ Some []) }
    {
        !self.is_over && self.bytes.is_empty()
    }

    /// The line, where its LF has come now; `None` where it is too long.
    pub fn line_at_newline(&self) -> Option<&[u8]>
        ensures { option_map (λ line. line.now) result ≡ ended_line self.now }
    {
        match self.held_bytes() {
            Some(bytes) => short(without_return(bytes)),
            None => None,
        }
    }

    /// The line, where the input has ended.
    pub fn line_at_end(&self) -> Option<&[u8]>
        ensures { option_map (λ line. line.now) result ≡ last_line self.now }
    {
        match self.held_bytes() {
            Some(bytes) => short(bytes),
            None => None,
        }
    }

    fn held_bytes(&self) -> Option<&[u8]>
        ensures { option_map (λ bytes. bytes.now) result ≡ self.now }
    {
        if self.is_over {
            None
        } else {
            Some(self.bytes.as_slice())
        }
    }
}

fn short(line: &[u8]) -> Option<&[u8]>
    ensures { option_map (λ line. line.now) result ≡ short_line line.now }
{
    if line.len() > LONGEST_LINE {
        None
    } else {
        Some(line)
    }
}
