ghost use Rattle.std.specs.Prelude.{◌≡◌, ℕ, List, Option, Ok};
ghost use Rattle.msp_asm.specs.{SecondPass.source_image, HasBytes.{OfEachStatement, HasBytesOf, HasInstructionOf}};

use crate::bytes_law::named_instructions_are_read;

/// The bytes of each statement of a source stand in its image, from the place before the statement
/// upwards: no other statement takes one of these places.
pub fn statements_stand_in_the_image()
    ensures { (text : List ℕ) (image : ℕ → Option ℕ)
        → source_image text ≡ Ok image
        → OfEachStatement (HasBytesOf image) text }
{}

/// Each instruction of a source stands in its image, at the place before its statement: the words
/// there are read as the instruction that the statement names, an emulated one as the processor's.
pub fn instructions_stand_in_the_image()
    ensures { (text : List ℕ) (image : ℕ → Option ℕ)
        → source_image text ≡ Ok image
        → OfEachStatement (HasInstructionOf image) text }
{
    named_instructions_are_read();
}
