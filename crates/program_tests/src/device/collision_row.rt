//! A round under a digest under which all lists collide.

use crate::attested_device::{EXEC_REGIONS, REQUESTED_IMAGE, image_of};
use crate::device::{ASKED, KEY};
use crate::inputs::text_of;
use device_cli::Judging;
use device_core::power_on;
use device_play::play_before;
use device_types::NoFlag;
use hex_loader::read_hex;
use hmac_core::Constant;
use outside_edge::MemSink;
use play_script::read_script;
use report_verifier::{Verifier, read_policy};
use std::test::Fail;
use text_scan::read_key;

// A request under a digest that is always zeros, which is then its token too.
const ZERO_REQUEST: &str = "at 0 rx \
000102030405060708090a0b0c0d0e0f101112131415161718191a1b1c1d1e1f\
40c046c000030003000000000100000000000000000000000000000000000000\n\
at 300 dma 0400 c042 1\n\
at 400 rx 00000000000000000000000000000000\n";

// The code is overwritten before it runs, so the device runs other code than the image has: the
// pair is that of the inner inputs of two HMACs under 32 zero bytes.
const COLLISION: &str = "report2 1189 exec 1 aux 0 count 1 \
     chal 000102030405060708090a0b0c0d0e0f101112131415161718191a1b1c1d1e1f \
     er c040 c046 or 0300 0300 data 0000 \
     mac 0000000000000000000000000000000000000000000000000000000000000000\n\
     verdict 1 accept\n\
     collision \
     363636363636363636363636363636363636363636363636363636363636363636363636363636363636\
     36363636363636363636363636363636363636363636000102030405060708090a0b0c0d0e0f10111213\
     1415161718191a1b1c1d1e1f40c046c0000300030100000001000000\
     0000000000000000000000000000000000000000000000000000000000000000\
     92422000000330410000 \
     363636363636363636363636363636363636363636363636363636363636363636363636363636363636\
     36363636363636363636363636363636363636363636000102030405060708090a0b0c0d0e0f10111213\
     1415161718191a1b1c1d1e1f40c046c0000300030100000001000000\
     0000000000000000000000000000000000000000000000000000000000000000\
     92420000000330410000\n\
     end 1192 pc c026 exec 1\n";

#[test]
fn a_pair_is_printed_where_all_lists_collide(rt: HostRuntime) -> Result<(), Fail> {
    let alloc = rt.alloc();
    let image = image_of(alloc, REQUESTED_IMAGE)?;
    let policy = text_of(alloc, &[EXEC_REGIONS, ASKED])?;
    let (Ok(key), Ok(image), Ok(script), Ok(policy)) = (
        read_key(KEY),
        read_hex(alloc, &image),
        read_script(alloc, ZERO_REQUEST.as_bytes()),
        read_policy(alloc, &policy),
    ) else {
        panic!(rt; "the files are in their form");
    };
    let verifier = Verifier {
        key: &key,
        image: &image,
        policy: &policy,
    };
    let device = power_on::<Constant, NoFlag>(alloc, &key, &image, NoFlag::new())?;
    let mut sink = MemSink::new(Vec::new(alloc), 2000, 100, Vec::new(alloc))?;
    let judging = Judging {
        alloc,
        verifier: &verifier,
    };
    let Ok((_, tally)) = play_before(device, &script, 1192, &judging, &mut sink) else {
        panic!(rt; "all is put");
    };
    assert!(rt; tally.all_accept());
    assert_eq!(rt; sink.as_bytes(), COLLISION.as_bytes());
    Ok(())
}
