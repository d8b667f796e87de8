/// A constant that the generators give without an extension word.
#[derive(Clone, Copy, Debug, PartialEq, Eq)]
pub enum Gen {
    Zero,
    One,
    Two,
    Four,
    Eight,
    MinusOne,
}
