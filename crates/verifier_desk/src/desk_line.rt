ghost use Rattle.std.specs.Prelude.{◌≡◌, ◌∷◌, List};
ghost use Rattle.text_scan.specs.Word.{words_of};
ghost use Rattle.verifier_desk.specs.{DeskLine.{desk_line_of_words, said_at}, DeviceKey.DeviceKey};

use text_scan::{Words, decimal};

// The greatest number of a line.
const GREATEST: u64 = 4_294_967_295;

/// A line of a device, before the device is looked for.
#[derive(Drop)]
pub struct OwnLine<'a> {
    pub name: &'a [u8],
    pub number: u32,
    /// Whether it gives a report; else it asks for a request.
    pub is_give: bool,
    /// What stands behind the number.
    pub rest: &'a [u8],
}

/// What a line says, whatever the devices are.
#[derive(Drop)]
pub enum SaidLine<'a> {
    /// It has no words.
    Silent,
    /// It is no line of a device.
    Foreign,
    /// It is one, where the desk has that device.
    Own(OwnLine<'a>),
}

/// What a line says: `ask NAME R ..` or `give NAME R ..` is a line of a device.
pub fn read_desk_line<'a>(line: &'a [u8]) -> SaidLine<'a>
    ensures { (devices : List DeviceKey)
        → desk_line_of_words devices (words_of line.now) ≡ said_at devices result }
{
    let mut words = Words::new(line);
    let Ok(verb) = words.word() else {
        return SaidLine::Silent;
    };
    let Ok(name) = words.word() else {
        return SaidLine::Foreign;
    };
    let Ok(number) = words.word() else {
        return SaidLine::Foreign;
    };
    read_own(verb, name, number, words.rest())
}

fn read_own<'a>(verb: &[u8], name: &'a [u8], number: &[u8], rest: &'a [u8]) -> SaidLine<'a>
    ensures { (devices : List DeviceKey)
        → desk_line_of_words devices (verb.now ∷ name.now ∷ number.now ∷ words_of rest.now)
        ≡ said_at devices result }
{
    let is_give = verb == b"give".as_slice();
    if !is_give && verb != b"ask".as_slice() {
        return SaidLine::Foreign;
    }
    let Ok(number) = decimal(number, 1, GREATEST) else {
        return SaidLine::Foreign;
    };
    SaidLine::Own(OwnLine {
        name,
        number: number as u32,
        is_give,
        rest,
    })
}
