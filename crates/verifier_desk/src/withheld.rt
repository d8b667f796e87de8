ghost use Rattle.std.specs.Prelude.{◌≡◌, ◌≤◌, ◌+◌, ◌++◌, true, length, IfOk, IsTrue};
ghost use Rattle.verifier_desk.specs.Withheld.{nothing_withheld};

use std::alloc::{AllocError, Global};
use std::marker::Model;

/// The longest reply.
pub const LONGEST_REPLY: usize = 256;

// How many bytes of replies are held back at most.
const ROOM: usize = 65_536;

/// Replies that are held back until the memory has settled, and whether it has to.
#[derive(Drop)]
pub struct Withheld {
    replies: Vec<u8>,
    is_noted: bool,
}

impl Model for Withheld {
    ghost use Rattle.std.specs.Prelude.{◌≤◌, vec_len, vec_capacity};
    ghost use Rattle.verifier_desk.specs.Withheld.{Withheld as WithheldFields};

    ghost Value = { WithheldFields };

    ghost view = { λ withheld. record {
      replies = withheld.replies.items;
      is_noted = withheld.is_noted;
    } };

    ghost invariant = { λ withheld. (vec_len withheld.replies ≤ 65536)
        × (65536 ≤ vec_capacity withheld.replies) };
}

impl Withheld {
    /// The room for replies is taken here.
    pub fn new(alloc: Global) -> Result<Withheld, AllocError>
        ensures { IfOk result (λ withheld. withheld ≡ nothing_withheld) }
    {
        let mut replies = Vec::new(alloc);
        replies.reserve_exact(ROOM)?;
        Ok(Withheld {
            replies,
            is_noted: false,
        })
    }

    /// Whether there is room for a reply.
    pub fn has_room(&self) -> bool
        ensures { IsTrue result → length self.now.replies + LONGEST_REPLY ≤ ROOM }
    {
        self.replies.len() <= ROOM - LONGEST_REPLY
    }

    /// Holds a reply back.
    pub fn push(&mut self, reply: &[u8])
        requires { length self.old.replies + length reply.now ≤ ROOM }
        ensures { self.new ≡ record self.old { replies = self.old.replies ++ reply.now } }
    {
        let Ok(()) = self.replies.extend_from_slice(reply) else {
            unreachable!()
        };
    }

    /// Keeps in mind that something was noted.
    pub fn note(&mut self)
        ensures { self.new ≡ record self.old { is_noted = true } }
    {
        self.is_noted = true;
    }

    pub fn is_noted(&self) -> bool
        ensures { result ≡ self.now.is_noted }
    {
        self.is_noted
    }

    pub fn as_slice(&self) -> &[u8]
        ensures { result.now ≡ self.now.replies }
    {
        &self.replies
    }

    /// Holds nothing back any more.
    pub fn clear(&mut self)
        ensures { self.new ≡ nothing_withheld }
    {
        self.replies.clear();
        self.is_noted = false;
    }
}
