// The value that has a number, where each is numbered by its place in the enum.
macro_rules! value_numbered {
    ($number:expr; $kind:ident: $($value:ident),+) => {
        match $number {
            $(n if n == $kind::$value as u16 => $kind::$value,)+
            _ => unreachable!(),
        }
    };
}

pub(crate) use value_numbered;
