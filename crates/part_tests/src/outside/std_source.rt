//! Readers as sources.

use crate::outside::fake_files::FakeFile;
use outside_edge::{Failed, Source, StdSource};

#[test]
fn a_reader_gives_what_it_has(rt: HostRuntime) {
    let mut source = StdSource::new(FakeFile::new(b"0123456789", 7));
    let mut piece = *b".........";
    assert_eq!(rt; source.take(&mut piece), Ok(7));
    assert_eq!(rt; source.take(&mut piece[7..]), Ok(2));
    assert_eq!(rt; &piece, b"012345678");
    assert_eq!(rt; source.take(&mut piece), Ok(1));
    assert_eq!(rt; &piece, b"912345678");
    assert_eq!(rt; source.take(&mut piece), Ok(0));
}

#[test]
fn every_error_of_a_reader_is_a_fault(rt: HostRuntime) {
    for number in 0..134 {
        let mut source = StdSource::new(FakeFile::torn(b"", number));
        assert_eq!(rt; source.take(&mut [0; 4]), Err(Failed), "error {number}");
    }
}
