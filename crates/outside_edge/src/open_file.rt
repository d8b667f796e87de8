ghost use Rattle.std.specs.Prelude.{◌≡◌, ◌≤◌, ◌+◌, Option, Some, length, IfOk, IfSome, OnOk};
ghost use Rattle.outside_edge.specs.File.{Copies, PlacedFile};

use std::io;

/// A file that is open.
pub trait OpenFile {
    /// Its bytes and the place of the next one, where it tells them.
    ghost told: { Self → Option PlacedFile };

    /// Moves to a place, counted from the first byte, which has the place 0.
    fn seek(&mut self, at: u64) -> io::Result<()>
        ensures { OnOk result (IfSome (told self.old) (λ file.
            told self.new ≡ Some (record file { place = at }))) };

    /// Reads the next bytes into the beginning of `piece`, and gives how many. `Ok(0)` for a piece
    /// that isn't empty is the end of the file.
    fn read(&mut self, piece: &mut [u8]) -> io::Result<usize>
        ensures within { IfOk result (λ n. n ≤ length piece.new) }
        ensures bytes { IfOk result (λ n. IfSome (told self.old) (λ file.
            Copies file.bytes file.place n piece.old piece.new)) }
        ensures moved { IfOk result (λ n. IfSome (told self.old) (λ file.
            told self.new ≡ Some (record file { place = file.place + n }))) };
}
