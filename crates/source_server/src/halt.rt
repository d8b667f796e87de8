/// Why a responder goes on no more.
#[derive(Clone, Copy, Debug, PartialEq, Eq)]
pub enum Halt<O> {
    /// Its sink failed.
    Write,
    /// An end of its own.
    Own(O),
}
