// A table of names is written once, as a macro that hands its rows to one of these: a value's name,
// and the value of a name.

macro_rules! name_of {
    ($value:expr; $($variant:ident $name:literal),+) => {
        match $value {
            $($variant => $name),+
        }
    };
}

macro_rules! value_named {
    ($word:expr; $($variant:ident $name:literal),+) => {
        match $word {
            $($name => Some($variant),)+
            _ => None,
        }
    };
}

pub(crate) use name_of;
pub(crate) use value_named;
