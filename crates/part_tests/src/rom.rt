use device_types::{Access, BusMaster, KR, MR};
use hmac_core::{Digest32, Sha256Digest};
use std::test::Fail;
use swatt_rom::Rom;

// The stack pointer at the start of each call.
const SP: u16 = 0x21FE;

// The word at a place: of the key 00 01 .. 3f, of this memory, or 0.
fn word_at(memory: &[(u16, u16)], place: u16) -> u16 {
    if KR.contains(place) {
        let low = (place - KR.first) as u8;
        return u16::from_le_bytes([low, low.wrapping_add(1)]);
    }
    for (at, word) in memory {
        if *at == place {
            return *word;
        }
    }
    0
}

// Keeps a word that is written to the MAC.
fn keep(mac: &mut [u8; 32], place: u16, word: u16) {
    if MR.contains(place) && place % 2 == 0 {
        let at = usize::from(place - MR.first);
        let [low, high] = word.to_le_bytes();
        mac[at] = low;
        mac[at + 1] = high;
    }
}

// The token of 32 zero bytes and the counter 1 under this key, by Python's hmac and hashlib.
const TOKEN: [u16; 16] = [
    0xC9BD, 0x28E6, 0x03DF, 0x964A, 0xB922, 0x0490, 0xBF0E, 0x50EF, 0xC49C, 0x2A20, 0xFB94, 0xDBEF,
    0x664C, 0xC95E, 0xCA13, 0xE9A5,
];

// The word at a place of a request with this counter and the token above, over this memory.
fn request_word(memory: &[(u16, u16)], counter: u16, place: u16) -> u16 {
    if place == 0x026C {
        counter
    } else if 0x0270 <= place && place < 0x0290 {
        TOKEN[usize::from(place - 0x0270) / 2]
    } else {
        word_at(memory, place)
    }
}

// A step over this memory with a request, if there is one: its access.
fn step<D: Digest32>(rom: &mut Rom<D>, memory: &[(u16, u16)], counter: u16) -> Option<Access> {
    let access = rom.ask()?;
    let value = match access {
        Access::Fetch(place) | Access::Read(place, _) => request_word(memory, counter, place),
        Access::Write(..) => 0,
    };
    rom.take(value);
    Some(access)
}

// What a call wrote to the MAC's region and as kept counter, and what it ends with.
#[derive(Clone, Copy, Debug)]
struct Outcome {
    mac: [u8; 32],
    kept: [u16; 2],
    registers: Option<(u16, u16)>,
    decision: Option<u16>,
}

// So many steps of a call over this memory.
fn call<D: Digest32>(memory: &[(u16, u16)], counter: u16, steps: usize) -> Outcome {
    let mut rom = Rom::<D>::new();
    rom.begin(SP);
    let mut mac = [0; 32];
    let mut kept = [0; 2];
    for _step in 0..steps {
        if let Some(Access::Write(place, _, word)) = step(&mut rom, memory, counter) {
            keep(&mut mac, place, word);
            if place == 0x4060 {
                kept[0] = word;
            } else if place == 0x4062 {
                kept[1] = word;
            }
        }
    }
    Outcome {
        mac,
        kept,
        registers: rom.done().map(|end| (end.pc, end.sp)),
        decision: rom.done().map(|end| end.decision),
    }
}

// HMAC-SHA-256 of metadata and region under the derived key, by Python's hmac and hashlib. In both
// the challenge is 32 zero bytes and the counter 1. The first call is of the program MOV #2200,SP;
// DINT; CALL #A000; JMP $ and one word of output, the second has bounds 0000, which are not valid.
#[test]
fn attests_region(rt: HostRuntime) -> Result<(), Fail> {
    let memory = [
        (0x0260, 0xC000),
        (0x0262, 0xC00A),
        (0x0264, 0x0300),
        (0x0266, 0x0300),
        (0xC000, 0x4031),
        (0xC002, 0x2200),
        (0xC004, 0xC232),
        (0xC006, 0x12B0),
        (0xC008, 0xA000),
        (0xC00A, 0x3FFF),
        (SP, 0xC00A),
    ];
    let outcome = call::<Sha256Digest>(&memory, 1, 133);
    assert_eq!(rt; outcome.registers, Some((0xC00A, 0x2200)));
    assert_eq!(rt; outcome.decision, Some(1));
    assert_eq!(rt; outcome.kept, [1, 0]);
    let digits = "987ec8975bddd1c65d1f11a8047fd0f67e6397dad1f7e10becfdbb0ea64f6a66";
    assert_eq!(rt; hex::encode(rt.alloc(), outcome.mac)?.as_str(), digits);
    Ok(())
}

#[test]
fn attests_metadata_alone(rt: HostRuntime) -> Result<(), Fail> {
    let memory = [(SP, 0xA002)];
    assert_eq!(rt; call::<Sha256Digest>(&memory, 1, 125).registers, None);
    let outcome = call::<Sha256Digest>(&memory, 1, 126);
    assert_eq!(rt; outcome.registers, Some((0xA002, 0x2200)));
    let digits = "bb2df1d544f72d6f4d8b2863d97c24f7689e82b32ee95ac87f8820d60fba2a72";
    assert_eq!(rt; hex::encode(rt.alloc(), outcome.mac)?.as_str(), digits);
    Ok(())
}

// The decision is all that such a call writes to the MAC's region, and the kept counter stays.
#[test]
fn denies_without_token_or_new_counter(rt: HostRuntime) {
    let old = call::<Sha256Digest>(&[(0x4060, 1), (SP, 0xC00A)], 1, 78);
    assert_eq!(rt; old.decision, Some(2));
    assert_eq!(rt; old.kept, [1, 0]);
    assert_eq!(rt; old.registers, Some((0xC00A, 0x2200)));
    let wrong = call::<Sha256Digest>(&[(0x4062, 7), (SP, 0xC00A)], 2, 78);
    assert_eq!(rt; wrong.decision, Some(3));
    assert_eq!(rt; wrong.kept, [0, 7]);
    let mut decision = [0; 32];
    decision[0] = 3;
    assert_eq!(rt; wrong.mac, decision);
}
