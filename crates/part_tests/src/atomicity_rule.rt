use crate::proposal::proposal;
use device_types::Access::{Fetch, Read, Write};
use device_types::Rule::{A1, A2, A3, A4};
use device_types::{Access, Kind, Rule};
use vrased_monitors::AtomMonitor;
use word_arith::Size::Word;

// The rule that a step breaks after a record with this `pc`.
fn rule_of(last: Option<u16>, kind: Kind, pc: u16, cpu: Option<Access>, irq: bool) -> Option<Rule> {
    AtomMonitor::new().check(last, &proposal(kind, pc, cpu, None, irq))
}

#[test]
fn entry_and_exit(rt: HostRuntime) {
    let rows = [
        // left from within, from the exit, and by the boot after a reset
        (Some(0xA002), Kind::Cpu, 0xC000, Some(A1)),
        (Some(0xA000), Kind::Cpu, 0x9FFE, Some(A1)),
        (Some(0xBFFC), Kind::Irq, 0xC000, Some(A1)),
        (Some(0xA002), Kind::Idle, 0x0000, Some(A1)),
        (Some(0xBFFE), Kind::Cpu, 0xC000, None),
        (Some(0xA002), Kind::Boot, 0x0000, None),
        // entered at the entry, elsewhere, and again
        (None, Kind::Rom, 0xA000, None),
        (Some(0xC000), Kind::Rom, 0xA000, None),
        (None, Kind::Cpu, 0xA002, Some(A2)),
        (Some(0xC000), Kind::Cpu, 0xA002, Some(A2)),
        (Some(0x9FFE), Kind::Cpu, 0xBFFE, Some(A2)),
        (Some(0xBFFE), Kind::Cpu, 0xA002, Some(A2)),
        (Some(0xBFFE), Kind::Rom, 0xA000, None),
        // within, and outside
        (Some(0xA000), Kind::Rom, 0xA002, None),
        (Some(0xA002), Kind::Rom, 0xBFFE, None),
        (Some(0xC000), Kind::Cpu, 0x9FFE, None),
        (None, Kind::Boot, 0x0000, None),
    ];
    for &(last, kind, pc, rule) in &rows {
        let answer = rule_of(last, kind, pc, Some(Read(0x0300, Word)), false);
        assert_eq!(rt; answer, rule, "{kind:?} at {pc:x} after {last:?}");
    }
}

#[test]
fn interrupts(rt: HostRuntime) {
    let rows = [
        (Some(0xC000), 0xA000, Some(A3)),
        (Some(0xA000), 0xA002, Some(A3)),
        (Some(0xA002), 0xBFFE, Some(A3)),
        (None, 0xA002, Some(A3)),
        (Some(0xC000), 0x9FFE, None),
        (Some(0xBFFE), 0xC000, None),
        (Some(0xA002), 0xC000, Some(A1)),
    ];
    for &(last, pc, rule) in &rows {
        let answer = rule_of(last, Kind::Rom, pc, None, true);
        assert_eq!(rt; answer, rule, "at {pc:x} after {last:?}");
    }
}

#[test]
fn return_read(rt: HostRuntime) {
    let rows = [
        (0xA002, 0xBFFE, Read(0x69FE, Word), None),
        (0xA002, 0xBFFE, Read(0x6A00, Word), Some(A4)),
        (0xA002, 0xBFFE, Read(0x6A3E, Word), Some(A4)),
        (0xA002, 0xBFFE, Read(0x6A40, Word), None),
        (0xA002, 0xBFFE, Read(0x3FFE, Word), None),
        (0xA002, 0xBFFE, Read(0x4000, Word), Some(A4)),
        (0xA002, 0xBFFE, Read(0x43FE, Word), Some(A4)),
        (0xA002, 0xBFFE, Read(0x4400, Word), None),
        (0xA002, 0xBFFE, Fetch(0x6A00), None),
        (0xA002, 0xBFFE, Write(0x4000, Word, 1), None),
        (0xA000, 0xA002, Read(0x6A00, Word), None),
        (0xC000, 0xBFFE, Read(0x6A00, Word), Some(A2)),
    ];
    for &(last, pc, access, rule) in &rows {
        let answer = rule_of(Some(last), Kind::Rom, pc, Some(access), false);
        assert_eq!(rt; answer, rule, "{access:?} at {pc:x}");
    }
}
