//! Files that are opened, and fail in every way.

use crate::outside::fake_files::{FakeFile, FakeFiles, Opening};
use crate::outside::told_file::ToldFile;
use outside_edge::{FileFault, FileOpener, FileShelf, Shelf, ShelfError, read_whole};
use std::test::Fail;

// A read of a piece of that length, of at most eight bytes: a file's name, a place, and the answer.
type Row<'a> = (&'a str, u64, usize, Result<&'a [u8], ShelfError>);

fn has_answer<O: FileOpener + Drop>(shelf: &mut FileShelf<O>, row: &Row<'_>) -> bool {
    let (name, at, length, answer) = *row;
    let mut piece = [0; 8];
    match shelf.read(name, at, &mut piece[..length.min(8)]) {
        Ok(count) => answer == Ok(&piece[..count]),
        Err(error) => answer == Err(error),
    }
}

// The name and the place of the first read that is answered otherwise.
fn first_wrong<'a, O: FileOpener + Drop>(
    shelf: &mut FileShelf<O>,
    rows: &[Row<'a>],
) -> Option<(&'a str, u64)> {
    for row in rows {
        if !has_answer(shelf, row) {
            return Some((row.0, row.1));
        }
    }
    None
}

// The same of a shelf of these openings.
fn first_wrong_of<'a>(openings: &[Opening<'_>], rows: &[Row<'a>]) -> Option<(&'a str, u64)> {
    first_wrong(&mut FileShelf::new(FakeFiles { openings }), rows)
}

fn opening<'a>(name: &'a str, file: FakeFile<'a>) -> Opening<'a> {
    Opening {
        name,
        file: Ok(file),
    }
}

#[test]
fn only_a_file_that_is_not_found_where_it_is_opened_is_absent(rt: HostRuntime) {
    for number in 0..134 {
        let openings = [Opening {
            name: "log",
            file: Err(number),
        }];
        let mut shelf = FileShelf::new(FakeFiles {
            openings: &openings,
        });
        let error = match number {
            // ENOENT.
            2 => ShelfError::Absent,
            _ => ShelfError::Failed,
        };
        assert!(rt;
            has_answer(&mut shelf, &("log", 0, 8, Err(error))),
            "error {number}"
        );
    }
}

// The bytes before the error are no file.
#[test]
fn no_error_is_the_end_of_a_file(rt: HostRuntime) {
    let bytes = [b'a'; 10_000];
    for number in 0..134 {
        for &length in &[0, 1, 4_096, 10_000] {
            let openings = [opening("log", FakeFile::torn(&bytes[..length], number))];
            let mut shelf = FileShelf::new(FakeFiles {
                openings: &openings,
            });
            assert_eq!(rt;
                read_whole(rt.alloc(), &mut shelf, "log", 10_000).err(),
                Some(FileFault::Failed),
                "error {number} after {length} bytes"
            );
        }
    }
}

#[test]
fn a_file_that_can_not_be_sought_is_read_once(rt: HostRuntime) -> Result<(), Fail> {
    let bytes = [b'a'; 10_000];
    for number in 0..134 {
        let openings = [opening("log", FakeFile::pipe(&bytes, number))];
        let mut shelf = FileShelf::new(FakeFiles {
            openings: &openings,
        });
        let whole = read_whole(rt.alloc(), &mut shelf, "log", 10_000)?;
        assert_eq!(rt; whole.len(), 10_000);
        let again = ("log", 0, 8, Err(ShelfError::Failed));
        assert!(rt; has_answer(&mut shelf, &again), "error {number}");
    }
    Ok(())
}

// The second opening of the name gives another file.
#[test]
fn a_file_that_is_replaced_is_read_to_its_own_end(rt: HostRuntime) {
    let openings = [
        opening("log", FakeFile::new(b"0123456789", 4)),
        opening("key", FakeFile::new(b"k", 4)),
        opening("log", FakeFile::new(b"abcdefghij", 4)),
    ];
    let rows: [Row<'_>; 8] = [
        ("log", 0, 8, Ok(b"0123")),
        ("log", 4, 8, Ok(b"4567")),
        ("log", 8, 8, Ok(b"89")),
        ("log", 10, 8, Ok(b"")),
        ("log", 5, 8, Ok(b"5678")),
        ("key", 0, 8, Ok(b"k")),
        ("log", 3, 8, Ok(b"defg")),
        ("log", 10, 8, Ok(b"")),
    ];
    assert_eq!(rt; first_wrong_of(&openings, &rows), None);
}

// Nothing is read into an empty piece, which is no end.
#[test]
fn an_empty_piece_moves_nothing(rt: HostRuntime) {
    // ESPIPE.
    let openings = [opening("log", FakeFile::pipe(b"0123456789", 29))];
    let rows: [Row<'_>; 4] = [
        ("log", 0, 0, Ok(b"")),
        ("log", 0, 8, Ok(b"01234567")),
        ("log", 8, 0, Ok(b"")),
        ("log", 8, 8, Ok(b"89")),
    ];
    assert_eq!(rt; first_wrong_of(&openings, &rows), None);
}

// Where it stands after a fault is not known, so it is opened anew.
#[test]
fn a_file_is_opened_anew_after_a_fault(rt: HostRuntime) {
    let openings = [
        opening("log", FakeFile::torn(b"01234", 4)),
        opening("log", FakeFile::new(b"0123456789", 8)),
    ];
    let rows: [Row<'_>; 4] = [
        ("log", 0, 8, Ok(b"01234")),
        ("log", 5, 8, Err(ShelfError::Failed)),
        ("log", 5, 8, Ok(b"56789")),
        ("log", 10, 8, Ok(b"")),
    ];
    assert_eq!(rt; first_wrong_of(&openings, &rows), None);
}

// The name is that of the opening, to the last byte, whatever file was open before.
#[test]
fn a_name_is_passed_as_it_is(rt: HostRuntime) {
    let openings = [
        opening("log", FakeFile::new(b"a", 8)),
        opening("", FakeFile::new(b"b", 8)),
        opening("log\n", FakeFile::new(b"c", 8)),
        opening("lo", FakeFile::new(b"d", 8)),
    ];
    let rows: [Row<'_>; 4] = [
        ("log", 0, 8, Ok(b"a")),
        ("", 0, 8, Ok(b"b")),
        ("log\n", 0, 8, Ok(b"c")),
        ("lo", 0, 8, Ok(b"d")),
    ];
    assert_eq!(rt; first_wrong_of(&openings, &rows), None);
}

// Of a file that its opener tells, so that each piece is what the shelf's clauses say.
#[test]
fn told_file_is_told_by_the_shelf(rt: HostRuntime) {
    let rows: [Row<'_>; 5] = [
        ("log", 0, 3, Ok(b"abc")),
        ("log", 9, 8, Ok(b"j")),
        ("key", 0, 8, Err(ShelfError::Absent)),
        ("log", 11, 8, Ok(b"")),
        ("log", 1, 3, Ok(b"bcd")),
    ];
    let mut shelf = FileShelf::new(ToldFile {
        name: "log",
        bytes: b"abcdefghij",
        place: 0,
    });
    assert_eq!(rt; first_wrong(&mut shelf, &rows), None);
}
