/// What the rows of a program end with.
pub trait RowEnd {
    ghost Outcome: { Type 0 };
}
