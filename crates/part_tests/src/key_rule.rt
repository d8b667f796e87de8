use crate::proposal::proposal;
use device_types::Access::{Fetch, Read, Write};
use device_types::Rule::{K1, K2, K3, K4, K5, K6};
use device_types::{Access, Kind, Rule};
use vrased_monitors::KeyMonitor;
use word_arith::Size::{Byte, Word};

// The rule that a step with this `pc` and these accesses breaks.
fn rule_of(pc: u16, cpu: Option<Access>, dma: Option<Access>) -> Option<Rule> {
    KeyMonitor::new().check(&proposal(Kind::Cpu, pc, cpu, dma, false))
}

#[test]
fn processor_at_the_edges(rt: HostRuntime) {
    let rows = [
        // from outside the ROM: the key
        (0xC000, Fetch(0x69FE), None),
        (0xC000, Fetch(0x6A00), Some(K1)),
        (0xC000, Fetch(0x6A3E), Some(K1)),
        (0xC000, Fetch(0x6A40), None),
        (0xC000, Read(0x69FF, Byte), None),
        (0xC000, Read(0x6A00, Byte), Some(K1)),
        (0xC000, Read(0x6A3F, Byte), Some(K1)),
        (0xC000, Read(0x6A40, Byte), None),
        (0xC000, Read(0x69FE, Word), None),
        (0xC000, Read(0x6A00, Word), Some(K1)),
        (0xC000, Read(0x6A3E, Word), Some(K1)),
        (0xC000, Read(0x6A40, Word), None),
        (0xC000, Write(0x6A00, Byte, 0xFF), None),
        (0xC000, Write(0x6A3E, Word, 0xFFFF), None),
        // the exclusive stack
        (0xC000, Fetch(0x3FFE), None),
        (0xC000, Fetch(0x4000), Some(K2)),
        (0xC000, Fetch(0x43FE), Some(K2)),
        (0xC000, Fetch(0x4400), None),
        (0xC000, Read(0x3FFF, Byte), None),
        (0xC000, Read(0x4000, Byte), Some(K2)),
        (0xC000, Read(0x43FF, Byte), Some(K2)),
        (0xC000, Read(0x4400, Word), None),
        (0xC000, Write(0x3FFE, Word, 1), None),
        (0xC000, Write(0x4000, Word, 1), Some(K2)),
        (0xC000, Write(0x43FF, Byte, 1), Some(K2)),
        (0xC000, Write(0x4400, Byte, 1), None),
        // the ROM's own memory, and its ends
        (0xC000, Write(0x0300, Word, 1), None),
        (0x9FFE, Read(0x6A00, Word), Some(K1)),
        (0xA000, Read(0x6A00, Word), None),
        (0xBFFE, Read(0x6A00, Word), None),
        (0x9FFE, Write(0x4000, Word, 1), Some(K2)),
        (0xA000, Write(0x4000, Word, 1), None),
        (0xBFFE, Write(0x43FE, Word, 1), None),
        // from the ROM: writes outside the exclusive stack and the MAC
        (0xA002, Write(0x0300, Word, 1), Some(K3)),
        (0xA002, Write(0x01FF, Byte, 1), Some(K3)),
        (0xA002, Write(0x0200, Byte, 1), None),
        (0xA002, Write(0x021E, Word, 1), None),
        (0xA002, Write(0x0220, Word, 1), Some(K3)),
        (0xA002, Write(0x3FFE, Word, 1), Some(K3)),
        (0xA002, Write(0x4000, Word, 1), None),
        (0xA002, Write(0x43FF, Byte, 1), None),
        (0xA002, Write(0x4400, Word, 1), Some(K3)),
        (0xA002, Write(0x6A00, Word, 1), Some(K3)),
        (0xA002, Read(0x0300, Word), None),
        (0xA002, Fetch(0x0300), None),
        // words at odd addresses, which no bus master of the device asks for
        (0xC000, Fetch(0x69FF), Some(K1)),
        (0xC000, Read(0x6A3F, Word), Some(K1)),
        (0xC000, Read(0x6A41, Word), None),
        (0xC000, Write(0x3FFF, Word, 1), Some(K2)),
        (0xC000, Fetch(0xFFFF), None),
        (0xA002, Write(0x01FF, Word, 1), Some(K3)),
        (0xA002, Write(0x43FD, Word, 1), None),
        (0xA002, Write(0x43FF, Word, 1), Some(K3)),
    ];
    for &(pc, access, rule) in &rows {
        assert_eq!(rt;
            rule_of(pc, Some(access), None),
            rule,
            "{access:?} at {pc:x}"
        );
    }
}

#[test]
fn dma_at_the_edges(rt: HostRuntime) {
    let rows = [
        (0xC000, Read(0x69FE, Word), None),
        (0xC000, Read(0x6A00, Word), Some(K4)),
        (0xC000, Write(0x6A3E, Word, 1), Some(K4)),
        (0xC000, Write(0x6A40, Word, 1), None),
        (0xC000, Write(0x3FFE, Word, 1), None),
        (0xC000, Write(0x4000, Word, 1), Some(K5)),
        (0xC000, Read(0x43FE, Word), Some(K5)),
        (0xC000, Read(0x4400, Word), None),
        (0xA002, Read(0x6A00, Word), Some(K4)),
        (0xA002, Read(0x4000, Word), Some(K5)),
        (0x9FFE, Read(0x0300, Word), None),
        (0xA000, Read(0x0300, Word), Some(K6)),
        (0xBFFE, Write(0x0300, Word, 1), Some(K6)),
        (0xC000, Read(0x0300, Word), None),
    ];
    for &(pc, access, rule) in &rows {
        assert_eq!(rt;
            rule_of(pc, None, Some(access)),
            rule,
            "{access:?} at {pc:x}"
        );
    }
}

#[test]
fn first_of_several(rt: HostRuntime) {
    let rows = [
        (0xC000, Read(0x6A00, Word), Read(0x6A00, Word), Some(K1)),
        (0xC000, Read(0x4000, Word), Read(0x6A00, Word), Some(K2)),
        (0xA002, Write(0x0300, Word, 1), Read(0x6A00, Word), Some(K3)),
        (0xA002, Write(0x0200, Word, 1), Read(0x6A00, Word), Some(K4)),
        (0xC000, Read(0x0300, Word), Read(0x0300, Word), None),
    ];
    for &(pc, cpu, dma, rule) in &rows {
        assert_eq!(rt;
            rule_of(pc, Some(cpu), Some(dma)),
            rule,
            "{cpu:?}, {dma:?} at {pc:x}"
        );
    }
}
