ghost use Rattle.std.specs.{Prelude.{◌≡◌, ◌++◌, IfOk, OnOk}, Option.option_map};
ghost use Rattle.sqlite_value.specs.Value.{owned};
ghost use Rattle.desk_database.specs.Rows.{desk_row, line_values, number_value, row_of, text_value};

use crate::printed_answer::answer_text;
use desk_memory::{Answer, Entry};
use sqlite_value::row::Row;
use sqlite_value::value::ValueRef;
use std::alloc::{AllocError, Global};

/// The row of an entry at a place. A place that an `i64` does not reach counts as out of memory.
pub fn row_of(alloc: Global, place: usize, entry: &Entry) -> Result<Row, AllocError>
    ensures { IfOk result (λ row. row ≡ row_of place entry.now) }
{
    let Ok(place) = i64::try_from(place) else {
        return Err(AllocError);
    };
    let (state, home) = (entry.state(), entry.home());
    let mut row = Row::new(alloc);
    row.push(ValueRef::Int(place))?;
    row.push(ValueRef::Null)?;
    row.push(ValueRef::Text(entry.name()))?;
    row.push(ValueRef::Blob(entry.mark()))?;
    row.push(ValueRef::Int(i64::from(home.moves)))?;
    row.push(text_value(home.gone))?;
    row.push(ValueRef::Int(i64::from(state.count)))?;
    row.push(number_value(state.outstanding))?;
    push_line(&mut row, state.last)?;
    Ok(row)
}

fn number_value(number: Option<u32>) -> ValueRef<'static>
    ensures { owned result ≡ number_value number }
{
    match number {
        None => ValueRef::Null,
        Some(number) => ValueRef::Int(i64::from(number)),
    }
}

fn text_value<'a>(text: Option<&'a [u8]>) -> ValueRef<'a>
    ensures { owned result ≡ text_value (option_map (λ bytes. bytes.now) text.entry) }
{
    match text {
        None => ValueRef::Null,
        Some(text) => ValueRef::Text(text),
    }
}

fn push_line(row: &mut Row, last: Option<(u32, Answer)>) -> Result<(), AllocError>
    ensures { OnOk result (row.new ≡ row.old ++ line_values last) }
{
    match last {
        None => {
            row.push(ValueRef::Null)?;
            row.push(ValueRef::Null)?;
        }
        Some((number, answer)) => {
            row.push(ValueRef::Int(i64::from(number)))?;
            row.push(ValueRef::Text(answer_text(answer).as_slice()))?;
        }
    }
    Ok(())
}

/// The number of the format of a memory.
pub const FORMAT: u32 = 2;

/// The row of a desk of this name.
pub fn desk_row(alloc: Global, desk: &[u8]) -> Result<Row, AllocError>
    ensures { IfOk result (λ row. row ≡ desk_row desk.now) }
{
    let mut row = Row::new(alloc);
    row.push(ValueRef::Int(0))?;
    row.push(ValueRef::Null)?;
    row.push(ValueRef::Text(desk))?;
    row.push(ValueRef::Int(i64::from(FORMAT)))?;
    Ok(row)
}
