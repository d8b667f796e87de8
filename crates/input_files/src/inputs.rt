use crate::refusal::Refusal;
use crate::row_end::RowEnd;
use outside_edge::Shelf;
use std::alloc::Global;

/// Files that are read one after the other. A pair reads its first and then its second, and `()`
/// reads none.
pub trait Inputs {
    ghost use Rattle.input_files.specs.{Row.RowOf, Reading.Reads};

    /// Their values.
    type Values: Drop;

    /// What the values stand for.
    ghost Meaning: { Type 0 };

    ghost meaning: { Self.Values → Meaning };

    /// The row that reads them and goes on with what their values stand for.
    ghost row_with: { (Outcome : Type 0) → Self → (Meaning → RowOf Outcome) → RowOf Outcome };

    /// Reads them in their order, up to the first that is absent or faulty. `E` is what the row
    /// ends with, whose first files they are.
    fn read<E: RowEnd, S: Shelf>(
        &self,
        alloc: Global,
        shelf: &mut S,
    ) -> Result<Self::Values, Refusal>
        ensures { (onward : Meaning → RowOf E.Outcome)
            → Reads S.files S.faults S.misses shelf.old shelf.new
            (row_with E.Outcome self.now onward) (λ values. onward (meaning values)) result };
}

impl<First: Inputs, Second: Inputs> Inputs for (First, Second) {
    type Values = (First::Values, Second::Values);

    ghost Meaning = { First.Meaning × Second.Meaning };

    ghost meaning = { λ values. (First.meaning values.0, Second.meaning values.1) };

    ghost row_with = { λ Outcome files onward.
        First.row_with Outcome files.0 (λ first.
        Second.row_with Outcome files.1 (λ second. onward (first, second))) };

    fn read<E: RowEnd, S: Shelf>(
        &self,
        alloc: Global,
        shelf: &mut S,
    ) -> Result<(First::Values, Second::Values), Refusal> {
        let first = self.0.read::<E, S>(alloc, shelf)?;
        let second = self.1.read::<E, S>(alloc, shelf)?;
        Ok((first, second))
    }
}

impl Inputs for () {
    type Values = ();

    ghost Meaning = { Unit {0} };

    ghost meaning = { λ none. none };

    ghost row_with = { λ Outcome files onward. onward tt };

    fn read<E: RowEnd, S: Shelf>(&self, _alloc: Global, _shelf: &mut S) -> Result<(), Refusal> {
        Ok(())
    }
}
