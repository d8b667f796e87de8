ghost use Rattle.std.specs.Prelude.{◌≡◌, ◌≤◌, ◌+◌, length, min};
ghost use Rattle.outside_edge.specs.Source.{GivesBytes};

use std::marker::Model;

/// Bytes in memory that are taken from the front, at most `most` in one call.
#[derive(Drop)]
pub struct ByteQueue {
    bytes: Vec<u8>,
    at: usize,
    most: usize,
}

impl Model for ByteQueue {
    ghost use Rattle.std.specs.Prelude.{◌≤◌, drop, vec_len};
    ghost use Rattle.outside_edge.specs.Source.{SureSource};

    ghost Value = { SureSource };

    ghost view = { λ queue. record {
      left = drop queue.at queue.bytes.items;
      given = queue.at;
      most = queue.most;
    } };

    ghost invariant = { λ queue. (1 ≤ queue.most) × (queue.at ≤ vec_len queue.bytes) };
}

impl ByteQueue {
    pub fn new(left: Vec<u8>, most: usize) -> ByteQueue
        requires { 1 ≤ most }
        ensures { result ≡ record { left = left.items; given = 0; most = most } }
    {
        ByteQueue {
            bytes: left,
            at: 0,
            most,
        }
    }

    /// Takes the next bytes into the beginning of the piece, as many as it and `most` allow.
    pub fn take(&mut self, piece: &mut [u8]) -> usize
        ensures amount { result
            ≡ min (length piece.old) (min self.old.most (length self.old.left)) }
        ensures within { result ≤ length piece.new }
        ensures bytes { GivesBytes self.old.left self.new.left result piece.old piece.new }
        ensures given { self.new.given ≡ self.old.given + result }
        ensures most { self.new.most ≡ self.old.most }
    {
        let rest = &self.bytes[self.at..];
        let count = piece.len().min(self.most).min(rest.len());
        piece[..count].copy_from_slice(&rest[..count]);
        self.at += count;
        count
    }
}
