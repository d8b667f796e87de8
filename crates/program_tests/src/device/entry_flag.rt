//! A second flag that rises and falls within a call.

use crate::attested_device::VECTOR_AND_END;
use crate::device::KEY;
use crate::inputs::text_of;
use device_core::power_on;
use device_play::{LineWatcher, play_before};
use device_types::{Bounds, BusRecord, Signals, TraceFlag};
use hex_loader::read_hex;
use hmac_core::Sha256Digest;
use outside_edge::MemSink;
use play_script::Script;
use std::test::Fail;
use text_scan::read_key;

// The ROM's first address.
const ENTRY: u16 = 0xA000;

// Set where the last record is there.
#[derive(Clone, Copy, Debug)]
struct EntryFlag {
    is_set: bool,
}

impl TraceFlag for EntryFlag {
    ghost use Rattle.std.{specs.Prelude.{◌≡◌, ◌==◌, false, option_map, unwrap_or}, proofs.Common.{◌∙◌, sym}};
    ghost use Rattle.device_types.specs.ExecFlag.{last_pc};

    ghost flag = { record {
      value = λ records. unwrap_or (option_map (λ pc. pc == 0xA000) (last_pc records)) false;
      has_seen = λ flag records.
          flag.is_set
          ≡ unwrap_or (option_map (λ pc. pc == 0xA000) (last_pc records)) false;
      passes = λ flag now before seen same. seen ∙ sym same;
    } };

    fn see(&mut self, _last: Option<u16>, entry: &BusRecord, _bounds: &Bounds) {
        self.is_set = entry.pc == ENTRY;
    }

    fn value(&self) -> bool {
        self.is_set
    }

    fn stays_clear(&self, pc: u16, _er_min: u16) -> bool {
        !self.is_set && pc != ENTRY
    }

    fn stays(&self, _quiet: bool, now: &Signals, _bounds: &Bounds) -> bool {
        self.is_set == (now.pc == ENTRY)
    }
}

// Calls the ROM, and sends the byte at 026A twice.
const SENDER: &str = ":16C0000031400022B01200A0D2426A027600D2426A027600FF3F0B\n";

// The counter 1 and the token of a challenge of zeros, by HMAC of Python's library, as a record.
const REQUEST: &str =
    ":24026C0001000000BDC9E628DF034A9622B990040EBFEF509CC4202A94FBEFDB4C665EC913CAA5E955\n";

// The MAC is from another program (HMAC of Python's library).
const TEXT: &[u8] = b"report2 131 exec 0 aux 1 count 1 \
chal 0000000000000000000000000000000000000000000000000000000000000000 \
er 0000 0000 or 0000 0000 data - \
mac 8da74acf641176e3824e0f0383f639ecbc52d88173dc4f7a29e0aac84c2732fe\n\
tx 136 00\ntx 141 00\nend 142 pc c014 exec 0\n";

// The report tells the flag as it was after the call's first step. After the call memory shows it
// as it is, though no record after the call changes it.
#[test]
fn memory_shows_the_flag_after_a_call(rt: HostRuntime) -> Result<(), Fail> {
    let alloc = rt.alloc();
    let image = text_of(alloc, &[SENDER, REQUEST, VECTOR_AND_END])?;
    let (Ok(key), Ok(image)) = (read_key(KEY), read_hex(alloc, &image)) else {
        panic!(rt; "the files are in their form");
    };
    let flag = EntryFlag { is_set: false };
    let device = power_on::<Sha256Digest, EntryFlag>(alloc, &key, &image, flag)?;
    let script = Script::new(alloc);
    let mut sink = MemSink::new(Vec::new(alloc), 1000, 100, Vec::new(alloc))?;
    let live = play_before(device, &script, 142, &LineWatcher, &mut sink);
    assert!(rt; live.is_ok());
    assert_eq!(rt; sink.as_bytes(), TEXT);
    Ok(())
}
