//! Output that goes out in pieces.

use outside_edge::{BufferedSink, Failed, MemSink, put_all};
use std::test::Fail;

// The sink takes all of a piece, and its third call fails. The first two are made where the buffer
// is full, of 8,192 bytes each.
#[test]
fn bytes_wait_until_the_buffer_is_full_or_ended(rt: HostRuntime) -> Result<(), Fail> {
    let alloc = rt.alloc();
    let sink = MemSink::new(Vec::new(alloc), 20_000, 20_000, [3].to_vec(alloc)?)?;
    let mut buffer = BufferedSink::new(sink);
    for _ in 0..200 {
        assert_eq!(rt; put_all(&mut buffer, &[b'a'; 100]), Ok(()));
    }
    assert_eq!(rt; buffer.flush(), Err(Failed));
    let (sink, result) = buffer.finish();
    assert_eq!(rt; result, Ok(()));
    assert_eq!(rt; sink.as_bytes().len(), 20_000);
    Ok(())
}
