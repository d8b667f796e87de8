ghost use Rattle.std.specs.{Prelude.{◌≡◌, ◌↔◌, ◌∷◌, [], ℕ, List, Option, pos, IfNone, IfOk, IfSome, IsTrue, length}, Option.option_map};
ghost use Rattle.sqlite_value.specs.{declared.value.Value.TheVariants.{Blob, Int, Null, Text}, Order.column, Value.owned};
ghost use Rattle.desk_memory.specs.{declared.{answer.Answer.Answer as Said, device_state.DeviceState.DeviceState as State}, Entry.{Entry as EntryFields, Home as EntryHome, home_fields, is_short, is_short_line, is_short_number, is_sized}};
ghost use Rattle.desk_database.specs.Rows.{desk_row, line_values, number_value, row_of, text_value};

use crate::answer_reader::answer_of_text;
use crate::entry_row::FORMAT;
use desk_memory::{Answer, DeviceState, Entry, Home, MARK};
use sqlite_value::row::Row;
use sqlite_value::value::ValueRef;
use std::alloc::{AllocError, Global};

// How many values a row of an entry has, and that of a desk.
const VALUES: usize = 10;

const DESK_VALUES: usize = 4;

/// The entry that a row has, where it is a row of the table at this place.
pub fn entry_of(alloc: Global, place: usize, row: &Row) -> Result<Option<Entry>, AllocError>
    ensures some { IfOk result (λ found. IfSome found (λ entry. row.now ≡ row_of place entry)) }
    ensures sized { IfOk result (λ found. IfSome found (λ entry. IsTrue (is_sized entry))) }
    ensures none { IfOk result (λ found. IfNone found ((entry : EntryFields)
        → IsTrue (is_sized entry) → row.now ≡ row_of place entry → ⊥)) }
{
    let Some(name) = name_in(row, place) else {
        return Ok(None);
    };
    let Some(mark) = mark_in(row.get(3)) else {
        return Ok(None);
    };
    let Some(home) = home_in(row) else {
        return Ok(None);
    };
    let Some(state) = state_in(row) else {
        return Ok(None);
    };
    Ok(Some(Entry::new(alloc, name, &mark, state, home)?))
}

/// The name of the desk that a row has, where it is that of a desk.
pub fn desk_of(row: &Row) -> Option<&[u8]>
    ensures some { IfSome result (λ desk. row.now ≡ desk_row desk.now) }
    ensures none { IfNone result ((desk : List ℕ) → row.now ≡ desk_row desk → ⊥) }
{
    if row.len() == DESK_VALUES
        && is_number(row.get(0), 0)
        && is_null(row.get(1))
        && is_number(row.get(3), FORMAT as usize)
    {
        text_in(row.get(2))
    } else {
        None
    }
}

// The name in a row of the table at this place.
fn name_in(row: &Row, place: usize) -> Option<&[u8]>
    ensures len { IfSome result (λ name. length row.now ≡ 10) }
    ensures place { IfSome result (λ name. column row.now 0 ≡ Int (pos place)) }
    ensures itself { IfSome result (λ name. column row.now 1 ≡ Null) }
    ensures name { IfSome result (λ name. column row.now 2 ≡ Text name.now) }
    ensures none { IfNone result ((name : List ℕ) → length row.now ≡ 10
        → column row.now 0 ≡ Int (pos place) → column row.now 1 ≡ Null
        → column row.now 2 ≡ Text name → ⊥) }
{
    if row.len() == VALUES && is_number(row.get(0), place) && is_null(row.get(1)) {
        text_in(row.get(2))
    } else {
        None
    }
}

fn is_number(value: ValueRef<'_>, number: usize) -> bool
    ensures { IsTrue result ↔ (owned value.entry ≡ Int (pos number)) }
{
    match value {
        ValueRef::Int(it) => usize::try_from(it) == Ok(number),
        _ => false,
    }
}

fn is_null(value: ValueRef<'_>) -> bool
    ensures { IsTrue result ↔ (owned value.entry ≡ Null) }
{
    matches!(value, ValueRef::Null)
}

fn text_in<'a>(value: ValueRef<'a>) -> Option<&'a [u8]>
    ensures some { IfSome result (λ text. owned value.entry ≡ Text text.now) }
    ensures none { IfNone result ((text : List ℕ) → owned value.entry ≡ Text text → ⊥) }
{
    match value {
        ValueRef::Text(text) => Some(text),
        _ => None,
    }
}

fn mark_in(value: ValueRef<'_>) -> Option<[u8; MARK]>
    ensures some { IfSome result (λ mark. owned value.entry ≡ Blob mark) }
    ensures none { IfNone result ((mark : List ℕ) → length mark ≡ 16
        → owned value.entry ≡ Blob mark → ⊥) }
{
    match value {
        ValueRef::Blob(mark) => <[u8; MARK]>::try_from(mark).ok(),
        _ => None,
    }
}

// Where a row says that its device is at home.
fn home_in(row: &Row) -> Option<Home<'_>>
    ensures moves { IfSome result (λ home. column row.now 4 ≡ Int (pos home.moves)) }
    ensures gone { IfSome result (λ home.
        column row.now 5 ≡ text_value (home_fields home).gone) }
    ensures sized { IfSome result (λ home. IsTrue (is_short home.moves)) }
    ensures none { IfNone result ((home : EntryHome) → IsTrue (is_short home.moves)
        → column row.now 4 ≡ Int (pos home.moves)
        → column row.now 5 ≡ text_value home.gone → ⊥) }
{
    Some(Home {
        moves: number_in(row.get(4))?,
        gone: text_or_null(row.get(5))?,
    })
}

fn text_or_null<'a>(value: ValueRef<'a>) -> Option<Option<&'a [u8]>>
    ensures some { IfSome result (λ text.
        owned value.entry ≡ text_value (option_map (λ bytes. bytes.now) text)) }
    ensures none { IfNone result ((text : Option (List ℕ))
        → owned value.entry ≡ text_value text → ⊥) }
{
    match value {
        ValueRef::Null => Some(None),
        _ => Some(Some(text_in(value)?)),
    }
}

// The state in a row, where it has one.
fn state_in(row: &Row) -> Option<DeviceState>
    ensures count { IfSome result (λ state. column row.now 6 ≡ Int (pos state.count)) }
    ensures outstanding { IfSome result (λ state.
        column row.now 7 ≡ number_value state.outstanding) }
    ensures last { IfSome result (λ state.
        column row.now 8 ∷ column row.now 9 ∷ [] ≡ line_values state.last) }
    ensures none { IfNone result ((state : State) → IsTrue (is_short state.count)
        → IsTrue (is_short_number state.outstanding) → IsTrue (is_short_line state.last)
        → column row.now 6 ≡ Int (pos state.count)
        → column row.now 7 ≡ number_value state.outstanding
        → column row.now 8 ∷ column row.now 9 ∷ [] ≡ line_values state.last → ⊥) }
{
    Some(DeviceState {
        count: number_in(row.get(6))?,
        outstanding: number_or_null(row.get(7))?,
        last: line_in(row.get(8), row.get(9))?,
    })
}

fn number_in(value: ValueRef<'_>) -> Option<u32>
    ensures some { IfSome result (λ number. owned value.entry ≡ Int (pos number)) }
    ensures none { IfNone result ((number : ℕ) → IsTrue (is_short number)
        → owned value.entry ≡ Int (pos number) → ⊥) }
{
    match value {
        ValueRef::Int(number) => u32::try_from(number).ok(),
        _ => None,
    }
}

fn number_or_null(value: ValueRef<'_>) -> Option<Option<u32>>
    ensures some { IfSome result (λ number. owned value.entry ≡ number_value number) }
    ensures none { IfNone result ((number : Option ℕ) → IsTrue (is_short_number number)
        → owned value.entry ≡ number_value number → ⊥) }
{
    match value {
        ValueRef::Null => Some(None),
        _ => Some(Some(number_in(value)?)),
    }
}

// The last number of a line, and its answer.
fn line_in(number: ValueRef<'_>, answer: ValueRef<'_>) -> Option<Option<(u32, Answer)>>
    ensures some { IfSome result (λ last.
        owned number.entry ∷ owned answer.entry ∷ [] ≡ line_values last) }
    ensures none { IfNone result ((last : Option (ℕ × Said)) → IsTrue (is_short_line last)
        → owned number.entry ∷ owned answer.entry ∷ [] ≡ line_values last → ⊥) }
{
    match (number, answer) {
        (ValueRef::Null, ValueRef::Null) => Some(None),
        (_, ValueRef::Text(text)) => {
            let number = number_in(number)?;
            let answer = answer_of_text(text)?;
            Some(Some((number, answer)))
        }
        _ => None,
    }
}
