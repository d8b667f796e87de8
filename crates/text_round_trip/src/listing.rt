ghost use Rattle.std.specs.Prelude.{◌≡◌, ◌↔◌, ℕ, Option, Some, IsTrue};
ghost use Rattle.mem_map.specs.ImagePlace.{IsImage};
ghost use Rattle.msp_asm.specs.{declared.item.Item.Item, Item.item_at};
ghost use Rattle.text_round_trip.specs.Listing.{IsReadAs, AreSameBytes, is_plain};

use msp_decode::{heads_are_spelled, words_are_written};

/// What a listing prints of an item is a statement, wherever it stands in a source. At the item's
/// place it assembles to the item's words but for the immediates that a constant generator gives,
/// those above 00FF in a byte instruction, and jumps past the first or the last place.
pub fn listed_items_are_read_back()
    ensures { (image : ℕ → Option ℕ) (place : ℕ) (item : Item)
        → IsImage image
        → item_at image place ≡ Some item
        → IsReadAs place item }
{
    heads_are_spelled();
}

/// It assembles to the bytes that the image has there exactly without these.
pub fn plain_items_assemble_to_their_bytes()
    ensures { (image : ℕ → Option ℕ) (place : ℕ) (item : Item)
        → IsImage image
        → item_at image place ≡ Some item
        → AreSameBytes image place item ↔ IsTrue (is_plain place item) }
{
    heads_are_spelled();
    words_are_written();
}
