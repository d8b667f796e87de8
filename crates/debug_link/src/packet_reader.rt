ghost use Rattle.std.specs.Prelude.{◌≡◌, ◌≤◌, ℕ, List, length, option_map, IfSome};
ghost use Rattle.debug_link.specs.{Conversation.LONGEST_BODY as longest, Link.{Link, Between, Within, HalfChecked, link_after_other, message_of_other, link_after, message_of}, declared.packet_reader.Stage.TheVariants.Body};

use crate::check_digits::are_digits_of;
use crate::held_body::HeldBody;

/// How far a packet has come.
#[derive(Clone, Copy, Debug, PartialEq, Eq)]
pub enum Stage {
    /// It has not begun.
    Between,
    /// Behind `$`.
    Body,
    /// Behind `#`.
    FirstDigit,
    /// Behind the first check digit, which is this byte.
    SecondDigit(u8),
}

/// What a byte says.
#[derive(Clone, Copy, Debug, PartialEq, Eq)]
pub enum Heard {
    Silence,
    /// The last packet is wanted again.
    Again,
    /// The check digits of a packet are not those of its body.
    Damage,
    /// A packet is whole.
    Whole,
}

/// Reads packets byte by byte.
#[derive(Drop)]
pub struct PacketReader {
    stage: Stage,
    body: HeldBody,
}

impl PacketReader {
    ghost use Rattle.debug_link.specs.{HeldBody.held_of, Reading.{ReaderStandsFor, KeepsBody, heard_of}};

    pub fn new() -> PacketReader
        ensures { ReaderStandsFor result Between }
    {
        PacketReader {
            stage: Stage::Between,
            body: HeldBody::new(),
        }
    }

    /// Takes the next byte.
    pub fn take(&mut self, byte: u8) -> Heard
        ensures link { (link : Link) → ReaderStandsFor self.old link
            → ReaderStandsFor self.new (link_after link byte) }
        ensures heard { (link : Link) → ReaderStandsFor self.old link
            → result ≡ heard_of (message_of link byte) }
        ensures body { (link : Link) → ReaderStandsFor self.old link
            → KeepsBody self.new (message_of link byte) }
    {
        if byte == b'$' {
            self.stage = Stage::Body;
            self.body.clear();
            return Heard::Silence;
        }
        match self.stage {
            Stage::Between if byte == b'-' => Heard::Again,
            Stage::Between => Heard::Silence,
            Stage::Body => {
                self.take_of_body(byte);
                Heard::Silence
            }
            Stage::FirstDigit => {
                self.stage = Stage::SecondDigit(byte);
                Heard::Silence
            }
            Stage::SecondDigit(first) => {
                self.stage = Stage::Between;
                self.check(first, byte)
            }
        }
    }

    // Takes a byte of a body, or the `#` behind it.
    fn take_of_body(&mut self, byte: u8)
        requires { self.old.stage ≡ Body }
        ensures { (body : List ℕ) → self.old.body ≡ held_of body
            → ReaderStandsFor self.new (link_after_other (Within body) byte) }
    {
        if byte == b'#' {
            self.stage = Stage::FirstDigit;
        } else {
            self.body.push(byte);
        }
    }

    // Whether the body has these check digits.
    fn check(&self, first: u8, second: u8) -> Heard
        ensures heard { (body : List ℕ) → self.now.body ≡ held_of body
            → result ≡ heard_of (message_of_other (HalfChecked body first) second) }
        ensures body { (body : List ℕ) → self.now.body ≡ held_of body
            → KeepsBody self.now (message_of_other (HalfChecked body first) second) }
    {
        if are_digits_of(self.body.sum(), first, second) {
            Heard::Whole
        } else {
            Heard::Damage
        }
    }

    /// The body of the packet that is whole now; `None` is one that is too long.
    pub fn body(&self) -> Option<&[u8]>
        ensures bytes { option_map (λ bytes. bytes.now) result ≡ self.now.body.bytes }
        ensures few { IfSome result (λ bytes. length bytes.now ≤ longest) }
    {
        self.body.bytes()
    }
}
