use crate::proposal::proposal;
use device_types::Access::{Fetch, Read, Write};
use device_types::{Access, Bounds, BusRecord, Kind, Rule, TraceFlag};
use execution_flags::{ExecFlag, is_quiet};
use word_arith::Size::{Byte, Word};

// ER is C020..C027, OR is 0300..0303.
const BOUNDS: Bounds = Bounds {
    er_min: 0xC020,
    er_max: 0xC026,
    or_min: 0x0300,
    or_max: 0x0302,
};

// A record that was not refused and in which no interrupt could be accepted.
fn record(kind: Kind, pc: u16, cpu: Option<Access>, dma: Option<Access>) -> BusRecord {
    BusRecord {
        kind,
        pc,
        regs: [0; 16],
        cpu,
        value: 0,
        dma,
        dma_value: 0,
        irq: false,
        reset: None,
    }
}

// An opcode fetch.
fn fetch(pc: u16) -> BusRecord {
    record(Kind::Cpu, pc, Some(Fetch(pc)), None)
}

// Whether the flag says that the step of this record, after one with this `pc`, leaves it as it is.
fn stays(flag: &ExecFlag, last: Option<u16>, entry: &BusRecord, bounds: &Bounds) -> bool {
    let now = proposal(entry.kind, entry.pc, entry.cpu, entry.dma, entry.irq);
    entry.reset.is_none() && flag.stays(is_quiet(last, &now, bounds), &now, bounds)
}

// The flag that has seen these records with these bounds, or is not shown them where it may, as the
// device has it.
fn flag_after(bounds: &Bounds, entries: &[BusRecord]) -> ExecFlag {
    let mut flag = ExecFlag::new();
    let mut last = None;
    for entry in entries {
        if !stays(&flag, last, entry, bounds) {
            flag.see(last, entry, bounds);
        }
        last = Some(entry.pc);
    }
    flag
}

#[test]
fn rises(rt: HostRuntime) {
    let rows = [
        (fetch(0xC020), true),
        (fetch(0xC022), false),
        (fetch(0xC01E), false),
        (record(Kind::Idle, 0xC020, None, None), false),
        (
            record(Kind::Irq, 0xC020, Some(Write(0x21FE, Word, 0)), None),
            false,
        ),
        (record(Kind::Rom, 0xC020, Some(Fetch(0xC020)), None), false),
        (record(Kind::Cpu, 0xC020, Some(Fetch(0xC022)), None), false),
        (
            record(Kind::Cpu, 0xC020, Some(Read(0xC020, Word)), None),
            false,
        ),
    ];
    for &(entry, is_set) in &rows {
        assert_eq!(rt;
            flag_after(&BOUNDS, &[fetch(0xC000), entry]).value(),
            is_set,
            "{entry:?}"
        );
    }
}

#[test]
fn rises_with_valid_bounds_alone(rt: HostRuntime) {
    let rows = [
        ((0xC020, 0xC026, 0x0300, 0x0302), true),
        ((0xC020, 0xC020, 0x0300, 0x0300), true),
        ((0xC020, 0xC027, 0x0300, 0x0302), false),
        ((0xC020, 0xC01E, 0x0300, 0x0302), false),
        ((0xC020, 0xC026, 0x0302, 0x0300), false),
        ((0xC020, 0xC026, 0x0301, 0x0303), false),
        ((0xC020, 0xC026, 0xC026, 0xC02A), false),
        ((0xC020, 0xC026, 0xC028, 0xC02A), true),
        ((0xC020, 0xFFDE, 0x0300, 0x0302), true),
        ((0xC020, 0xFFE0, 0x0300, 0x0302), false),
        ((0xC020, 0xC026, 0x021E, 0x0220), false),
        ((0xC020, 0xC026, 0x0220, 0x023E), true),
        ((0xC020, 0xC026, 0x0220, 0x0240), false),
        ((0xC020, 0xC026, 0x028E, 0x028E), false),
        ((0xC020, 0xC026, 0x0290, 0x21FE), true),
        ((0xC020, 0xC026, 0x0290, 0x2200), false),
        ((0xC020, 0xC026, 0x4000, 0x4000), false),
    ];
    for &((er_min, er_max, or_min, or_max), is_set) in &rows {
        let bounds = Bounds {
            er_min,
            er_max,
            or_min,
            or_max,
        };
        assert_eq!(rt;
            flag_after(&bounds, &[fetch(0xC020)]).value(),
            is_set,
            "{bounds:?}"
        );
    }
}

#[test]
fn stays_or_falls_inside(rt: HostRuntime) {
    let inside = |cpu| record(Kind::Cpu, 0xC020, Some(cpu), None);
    let with_dma = |dma| record(Kind::Cpu, 0xC020, None, Some(dma));
    let irq = BusRecord {
        irq: true,
        ..fetch(0xC022)
    };
    let refusal = BusRecord {
        reset: Some(Rule::X0),
        ..fetch(0xC022)
    };
    let rows = [
        (fetch(0xC022), true),
        (inside(Fetch(0xC026)), true),
        (inside(Read(0x0300, Word)), true),
        (inside(Write(0x0300, Word, 1)), true),
        (inside(Write(0xC01E, Word, 1)), true),
        (inside(Write(0xC020, Byte, 1)), false),
        (inside(Write(0xC026, Word, 1)), false),
        (inside(Write(0xC027, Byte, 1)), false),
        (inside(Write(0xC028, Word, 1)), true),
        (inside(Fetch(0xC01E)), false),
        (inside(Fetch(0xC028)), false),
        (inside(Fetch(0xC027)), false),
        (inside(Write(0xC01F, Word, 1)), false),
        (inside(Write(0x023F, Byte, 1)), true),
        (inside(Write(0x0240, Byte, 1)), false),
        (inside(Write(0x028F, Byte, 1)), false),
        (inside(Write(0x0290, Byte, 1)), true),
        (inside(Read(0x0240, Word)), true),
        (with_dma(Read(0x0400, Word)), false),
        (irq, false),
        (refusal, false),
        (fetch(0xC000), false),
    ];
    for &(entry, is_set) in &rows {
        assert_eq!(rt;
            flag_after(&BOUNDS, &[fetch(0xC020), entry]).value(),
            is_set,
            "{entry:?}"
        );
    }
}

#[test]
fn stays_or_falls_outside(rt: HostRuntime) {
    let outside = |cpu| record(Kind::Cpu, 0xC000, Some(cpu), None);
    let with_dma = |dma| record(Kind::Cpu, 0xC000, None, Some(dma));
    let irq = BusRecord {
        irq: true,
        ..fetch(0xC000)
    };
    let rows = [
        (fetch(0xC000), true),
        (irq, true),
        (outside(Read(0x0300, Word)), true),
        (outside(Write(0x02FE, Word, 1)), true),
        (outside(Write(0x0300, Byte, 1)), false),
        (outside(Write(0x0303, Byte, 1)), false),
        (outside(Write(0x0304, Word, 1)), true),
        (outside(Write(0xC026, Word, 1)), false),
        (outside(Write(0x0260, Word, 1)), false),
        (with_dma(Read(0x02FE, Word)), true),
        (with_dma(Read(0x0302, Word)), false),
        (with_dma(Write(0x0300, Word, 1)), false),
        (with_dma(Read(0x0304, Word)), true),
        (with_dma(Read(0xC01E, Word)), true),
        (with_dma(Read(0xC026, Word)), false),
        (with_dma(Read(0x0240, Word)), true),
        (with_dma(Write(0x0268, Word, 1)), false),
        (fetch(0xC022), false),
        (record(Kind::Idle, 0xC020, None, None), true),
    ];
    for &(entry, is_set) in &rows {
        let entries = [fetch(0xC020), fetch(0xC026), fetch(0xC004), entry];
        assert_eq!(rt; flag_after(&BOUNDS, &entries).value(), is_set, "{entry:?}");
    }
}

#[test]
fn left_from_the_last_instruction(rt: HostRuntime) {
    let rows = [
        (0xC026, true),
        (0xC024, false),
        (0xC027, false),
        (0xC020, false),
    ];
    for &(last, is_set) in &rows {
        let entries = [
            fetch(0xC020),
            record(Kind::Cpu, last, None, None),
            fetch(0xC000),
        ];
        assert_eq!(rt;
            flag_after(&BOUNDS, &entries).value(),
            is_set,
            "left from {last:x}"
        );
    }
}

// Of what leaves the flag set, the accesses of the DMA and the entry and exit of the region alone
// are not passed over.
#[test]
fn stays_set(rt: HostRuntime) {
    let inside = |cpu| record(Kind::Cpu, 0xC022, Some(cpu), None);
    let outside = |cpu| record(Kind::Cpu, 0xC000, Some(cpu), None);
    let dma_read = record(Kind::Cpu, 0xC000, None, Some(Read(0x0400, Word)));
    let from_inside = [fetch(0xC020)];
    let from_end = [fetch(0xC020), fetch(0xC026)];
    let from_outside = [fetch(0xC020), fetch(0xC026), fetch(0xC004)];
    let rows: [(&[BusRecord], BusRecord, bool); 14] = [
        (&from_inside, fetch(0xC022), true),
        (&from_inside, inside(Fetch(0xC026)), true),
        (&from_inside, inside(Fetch(0xC028)), false),
        (&from_inside, inside(Read(0x0240, Word)), true),
        (&from_inside, inside(Write(0x0300, Word, 1)), true),
        (&from_inside, inside(Write(0xC028, Word, 1)), true),
        (&from_inside, inside(Write(0xC027, Byte, 1)), false),
        (&from_inside, record(Kind::Idle, 0xC022, None, None), true),
        (&from_end, fetch(0xC000), false),
        (&from_outside, fetch(0xC000), true),
        (&from_outside, outside(Write(0x02FE, Word, 1)), true),
        (&from_outside, outside(Write(0x0302, Word, 1)), false),
        (&from_outside, dma_read, false),
        (&[], fetch(0xC022), true),
    ];
    for &(before, entry, is_left) in &rows {
        let flag = flag_after(&BOUNDS, before);
        let last = before.last().map(|entry| entry.pc);
        assert_eq!(rt; stays(&flag, last, &entry, &BOUNDS), is_left, "{entry:?}");
    }
}
