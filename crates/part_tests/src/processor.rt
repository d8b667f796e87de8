use device_types::{Access, BusMaster};
use msp_exec::Cpu;
use std::process::Abort;
use word_arith::Size;

// The number of some hexadecimal digits.
fn number(digits: &str) -> Option<u16> {
    u16::from_str_radix(digits, 16).ok()
}

// The index of a register, and the word for it.
fn setting(word: &str) -> Option<(usize, u16)> {
    let (name, digits) = word.split_once('=')?;
    let index = match name {
        "pc" => 0,
        "sp" => 1,
        "sr" => 2,
        "r4" => 4,
        _ => 5,
    };
    Some((index, number(digits)?))
}

// An access and the value that it gives: a fetch, a read or write of a word, or one of a byte.
fn access(word: &str) -> Option<(Access, u16)> {
    let (kind, numbers) = word.split_once(':')?;
    let (place, value) = numbers.split_once(':')?;
    let (place, value) = (number(place)?, number(value)?);
    Some(match kind {
        "f" => (Access::Fetch(place), value),
        "r" => (Access::Read(place, Size::Word), value),
        "rb" => (Access::Read(place, Size::Byte), value),
        "w" => (Access::Write(place, Size::Word, value), 0),
        _ => (Access::Write(place, Size::Byte, value), 0),
    })
}

// Takes MOV #N,R, which sets a register.
fn set(cpu: &mut Cpu, index: usize, word: u16) {
    cpu.try_take(0x4030 + (index % 16) as u16);
    cpu.try_take(word);
}

// A row has the opcode, which stands at C000, and the registers before, where SP is 2200 and the
// others are 0; the further accesses; and the registers that are changed. None where it lacks one.
fn check_row(rt: &impl Abort, row: &str) -> Option<()> {
    let (before, after) = row.split_once('|')?;
    let (accesses, changes) = after.split_once('|')?;
    let (opcode, settings) = before.split_once(' ')?;
    let mut cpu = Cpu::new();
    set(&mut cpu, 1, 0x2200);
    for word in settings.split_whitespace() {
        let (index, value) = setting(word)?;
        set(&mut cpu, index, value);
    }
    set(&mut cpu, 0, 0xC000);
    let mut registers = cpu.regs();
    assert_eq!(rt; cpu.access(), Access::Fetch(0xC000), "{row}");
    assert!(rt; cpu.try_take(number(opcode)?), "{row}");
    for word in accesses.split_whitespace() {
        let (proposal, value) = access(word)?;
        assert!(rt; !cpu.at_boundary(), "{row}");
        assert_eq!(rt; cpu.access(), proposal, "{row}");
        assert!(rt; cpu.try_take(value), "{row}");
    }
    assert!(rt; cpu.at_boundary(), "{row}");
    for word in changes.split_whitespace() {
        let (index, value) = setting(word)?;
        registers[index % 16] = value;
    }
    assert_eq!(rt; cpu.regs(), registers, "{row}");
    Some(())
}

fn check_rows(rt: &impl Abort, rows: &[&str]) {
    for row in rows {
        assert!(rt; check_row(rt, row).is_some(), "{row}");
    }
}

#[test]
fn two_operands_in_both_sizes(rt: HostRuntime) {
    let rows = [
        // MOV leaves the flags
        "4405 r4=1234 sr=0107 | | pc=C002 r5=1234",
        "4445 r4=12F4 r5=5678 | | pc=C002 r5=00F4",
        // ADD
        "5405 r4=7FFF r5=0001 | | pc=C002 sr=0104 r5=8000",
        "5445 r4=12FF r5=3401 | | pc=C002 sr=0003 r5=0000",
        // ADDC
        "6405 r4=FFFF sr=0001 | | pc=C002 sr=0003 r5=0000",
        "6445 r4=0040 r5=003F sr=0001 | | pc=C002 sr=0104 r5=0080",
        // SUBC
        "7405 r4=0005 r5=0005 | | pc=C002 sr=0004 r5=FFFF",
        "7445 r4=0001 r5=0080 sr=0001 | | pc=C002 sr=0101 r5=007F",
        // SUB
        "8405 r4=0001 | | pc=C002 sr=0004 r5=FFFF",
        "8445 r4=3410 r5=1210 | | pc=C002 sr=0003 r5=0000",
        // CMP
        "9405 r4=0001 r5=8000 | | pc=C002 sr=0101",
        "9445 r4=00FF r5=12FF | | pc=C002 sr=0003",
        // DADD leaves V
        "A405 r4=0001 r5=9999 | | pc=C002 sr=0003 r5=0000",
        "A445 r4=0019 r5=0085 sr=0101 | | pc=C002 r5=0005",
        // BIT
        "B405 r4=8001 r5=8000 sr=0100 | | pc=C002 sr=0005",
        "B445 r4=000F r5=12F0 sr=0001 | | pc=C002 sr=0002",
        // BIC and BIS leave the flags
        "C405 r4=00F0 r5=12F4 sr=0107 | | pc=C002 r5=1204",
        "C445 r4=FF0F r5=12FF sr=0107 | | pc=C002 r5=00F0",
        "D405 r4=00F0 r5=1204 sr=0107 | | pc=C002 r5=12F4",
        "D445 r4=1280 r5=3401 sr=0003 | | pc=C002 r5=0081",
        // XOR
        "E405 r4=FFFF r5=8000 | | pc=C002 sr=0101 r5=7FFF",
        "E445 r4=00FF r5=12FF | | pc=C002 sr=0102 r5=0000",
        // AND
        "F405 r4=0FF0 r5=00FF sr=0106 | | pc=C002 sr=0001 r5=00F0",
        "F445 r4=0180 r5=FF80 | | pc=C002 sr=0005 r5=0080",
    ];
    check_rows(&rt, &rows);
}

#[test]
fn one_operand(rt: HostRuntime) {
    let rows = [
        // RRC, SWPB, RRA and SXT of a register
        "1005 r5=0001 sr=0101 | | pc=C002 sr=0005 r5=8000",
        "1045 r5=12FE | | pc=C002 r5=007F",
        "1085 r5=1234 sr=0107 | | pc=C002 r5=3412",
        "1105 r5=8003 | | pc=C002 sr=0005 r5=C001",
        "1145 r5=0081 sr=0100 | | pc=C002 sr=0005 r5=00C0",
        "1185 r5=0080 | | pc=C002 sr=0005 r5=FF80",
        "1185 r5=1200 sr=0001 | | pc=C002 sr=0002 r5=0000",
        // and of PC, SP and SR
        "1180 | | pc=0002 sr=0001",
        "1081 | | pc=C002 sp=0022",
        "1002 sr=0001 | | pc=C002 sr=0000",
        "1102 sr=0107 | | pc=C002 sr=0083",
        // in memory: RRC @R4+, RRA.B &0301, SWPB @R4, SXT 2(R4)
        "1034 r4=0300 | r:0300:0002 w:0300:0001 | pc=C002 r4=0302",
        "1152 | f:C002:0301 rb:0301:80 wb:0301:C0 | pc=C004 sr=0004",
        "10A4 r4=0301 | r:0300:1234 w:0300:3412 | pc=C002",
        "1194 r4=0300 | f:C002:0002 r:0302:0080 w:0302:FF80 | pc=C004 sr=0005",
        // PUSH of R5, byte of R5, SP, PC, SR, R3, #8, byte #-1, byte @R4+, @SP+, #N
        "1205 r5=1234 | w:21FE:1234 | pc=C002 sp=21FE",
        "1245 r5=1234 | wb:21FE:34 | pc=C002 sp=21FE",
        "1201 | w:21FE:2200 | pc=C002 sp=21FE",
        "1200 | w:21FE:C002 | pc=C002 sp=21FE",
        "1202 sr=0107 | w:21FE:0107 | pc=C002 sp=21FE",
        "1203 | w:21FE:0000 | pc=C002 sp=21FE",
        "1232 | w:21FE:0008 | pc=C002 sp=21FE",
        "1273 | wb:21FE:FF | pc=C002 sp=21FE",
        "1274 r4=0301 | rb:0301:AB wb:21FE:AB | pc=C002 sp=21FE r4=0302",
        "1231 | r:2200:1234 w:2200:1234 | pc=C002",
        "1230 | f:C002:1234 w:21FE:1234 | pc=C004 sp=21FE",
        // RETI restores nine bits of SR, GIE among them
        "1300 sr=0107 | r:2200:FFFF r:2202:D003 | pc=D002 sp=2204 sr=01FF",
        "1300 sr=0107 | r:2200:0008 r:2202:D000 | pc=D000 sp=2204 sr=0008",
        // PUSH 2(SP), PUSH 4(PC), PUSH @PC
        "1211 | f:C002:0002 r:2202:1234 w:21FE:1234 | pc=C004 sp=21FE",
        "1210 | f:C002:0004 r:C006:1234 w:21FE:1234 | pc=C004 sp=21FE",
        "1220 | r:C002:1234 w:21FE:1234 | pc=C002 sp=21FE",
    ];
    check_rows(&rt, &rows);
}

#[test]
fn calls_of_each_mode(rt: HostRuntime) {
    let rows = [
        "1285 r5=D001 | w:21FE:C002 | pc=D000 sp=21FE",
        "1281 | w:21FE:C002 | pc=2200 sp=21FE",
        "12B0 | f:C002:D000 w:21FE:C004 | pc=D000 sp=21FE",
        "12A5 r5=0300 | r:0300:D002 w:21FE:C002 | pc=D002 sp=21FE",
        "12B5 r5=0300 | r:0300:D002 w:21FE:C002 | pc=D002 sp=21FE r5=0302",
        "12B1 | r:2200:D00A w:2200:C002 | pc=D00A",
        "1295 r5=0300 | f:C002:0004 r:0304:D004 w:21FE:C004 | pc=D004 sp=21FE",
        "1292 | f:C002:0300 r:0300:D006 w:21FE:C004 | pc=D006 sp=21FE",
        "1290 | f:C002:0010 r:C012:D008 w:21FE:C004 | pc=D008 sp=21FE",
        "12B2 | w:21FE:C002 | pc=0008 sp=21FE",
    ];
    check_rows(&rt, &rows);
}

#[test]
fn jumps(rt: HostRuntime) {
    let rows = [
        "2004 | | pc=C00A",
        "2004 sr=0002 | | pc=C002",
        "2404 sr=0002 | | pc=C00A",
        "2404 | | pc=C002",
        "2804 | | pc=C00A",
        "2804 sr=0001 | | pc=C002",
        "2C04 sr=0001 | | pc=C00A",
        "2C04 | | pc=C002",
        "3004 sr=0004 | | pc=C00A",
        "3004 | | pc=C002",
        "3404 sr=0104 | | pc=C00A",
        "3404 | | pc=C00A",
        "3404 sr=0004 | | pc=C002",
        "3804 sr=0100 | | pc=C00A",
        "3804 sr=0104 | | pc=C002",
        "3C04 sr=0107 | | pc=C00A",
        // to itself, and to both ends of the range
        "3FFF | | pc=C000",
        "3E00 | | pc=BC02",
        "3DFF | | pc=C400",
        "3C00 | | pc=C002",
    ];
    check_rows(&rt, &rows);
}

#[test]
fn sources_of_each_mode(rt: HostRuntime) {
    let rows = [
        // R3 gives 0, 1, 2 and -1, and R2 gives 4 and 8
        "4305 r5=1234 | | pc=C002 r5=0000",
        "4315 | | pc=C002 r5=0001",
        "4325 | | pc=C002 r5=0002",
        "4335 | | pc=C002 r5=FFFF",
        "4375 | | pc=C002 r5=00FF",
        "4225 | | pc=C002 r5=0004",
        "4235 | | pc=C002 r5=0008",
        // PC, SP and SR, and the low byte of PC
        "4005 | | pc=C002 r5=C002",
        "4045 | | pc=C002 r5=0002",
        "4105 | | pc=C002 r5=2200",
        "4205 sr=0107 | | pc=C002 r5=0107",
        // 2(R4), 2(SP), symbolic, absolute; the address of a word loses bit 0
        "4415 r4=0300 | f:C002:0002 r:0302:1234 | pc=C004 r5=1234",
        "4115 | f:C002:0002 r:2202:1234 | pc=C004 r5=1234",
        "4015 | f:C002:0010 r:C012:1234 | pc=C004 r5=1234",
        "4215 | f:C002:0301 r:0300:1234 | pc=C004 r5=1234",
        "4255 | f:C002:0301 rb:0301:AB | pc=C004 r5=00AB",
        "4415 r4=FFFF | f:C002:0003 r:0002:1234 | pc=C004 r5=1234",
        // @R4, @SP, @PC; PC is not moved
        "4425 r4=0303 | r:0302:1234 | pc=C002 r5=1234",
        "4125 | r:2200:1234 | pc=C002 r5=1234",
        "4025 | r:C002:1234 | pc=C002 r5=1234",
        "4065 | rb:C002:34 | pc=C002 r5=0034",
        // @R4+ by 2 and by 1, @SP+ by 2 also of a byte, immediates
        "4435 r4=FFFE | r:FFFE:1234 | pc=C002 r4=0000 r5=1234",
        "4475 r4=0301 | rb:0301:AB | pc=C002 r4=0302 r5=00AB",
        "4135 | r:2200:1234 | pc=C002 sp=2202 r5=1234",
        "4175 | rb:2200:AB | pc=C002 sp=2202 r5=00AB",
        "4035 | f:C002:1234 | pc=C004 r5=1234",
        "4075 | f:C002:1234 | pc=C004 r5=0034",
    ];
    check_rows(&rt, &rows);
}

#[test]
fn destinations_of_each_mode(rt: HostRuntime) {
    let rows = [
        // PC and SP lose bit 0, SR keeps nine bits, R3 drops what is written
        "4400 r4=D001 | | pc=D000",
        "4440 r4=12F1 | | pc=00F0",
        "4401 r4=0301 | | pc=C002 sp=0300",
        "4402 r4=FFFF | | pc=C002 sr=01FF",
        "4403 r4=1234 | | pc=C002",
        "5403 r4=FFFF | | pc=C002 sr=0004",
        "5320 | | pc=C004 sr=0004",
        "5321 | | pc=C002 sp=2202",
        // a result in SR stands in place of the flags; BIT and CMP set them there
        "5402 r4=0001 sr=0001 | | pc=C002 sr=0002",
        "D232 | | pc=C002 sr=0008",
        "C232 sr=000F | | pc=C002 sr=0007",
        "F402 r4=FFF0 sr=0118 | | pc=C002 sr=0110",
        "8442 r4=0001 sr=0101 | | pc=C002 sr=0000",
        "B402 r4=0008 sr=0008 | | pc=C002 sr=0009",
        "9402 r4=0018 sr=0018 | | pc=C002 sr=001B",
        // 2(R5), symbolic, absolute, R3 with base 0, -2(SP)
        "4485 r4=1234 r5=0300 | f:C002:0002 w:0302:1234 | pc=C004",
        "4480 r4=1234 | f:C002:0010 w:C012:1234 | pc=C004",
        "4482 r4=1234 | f:C002:0301 w:0300:1234 | pc=C004",
        "4483 r4=1234 | f:C002:0300 w:0300:1234 | pc=C004",
        "4481 r4=1234 | f:C002:FFFE w:21FE:1234 | pc=C004",
        "44C2 r4=12AB | f:C002:0301 wb:0301:AB | pc=C004",
        // MOV does not read, CMP and BIT do not write
        "5485 r4=0001 r5=0300 | f:C002:0002 r:0302:FFFF w:0302:0000 | pc=C004 sr=0003",
        "9485 r4=0001 r5=0300 | f:C002:0002 r:0302:0001 | pc=C004 sr=0003",
        "B485 r4=0001 r5=0300 | f:C002:0002 r:0302:0001 | pc=C004 sr=0001",
        // both in memory: the base of each symbolic operand is the address of its own word
        "4090 | f:C002:0010 r:C012:1234 f:C004:0020 w:C024:1234 | pc=C006",
        // the increment comes before the destination is looked at
        "44B4 r4=0300 | r:0300:1234 f:C002:0002 w:0304:1234 | pc=C004 r4=0302",
        "5434 r4=0300 | r:0300:0010 | pc=C002 r4=0312",
        "4131 | r:2200:0400 | pc=C002 sp=0400",
        // RET, and an immediate to STXD
        "4130 | r:2200:D001 | pc=D000 sp=2202",
        "40F2 | f:C002:1241 f:C004:0076 wb:0076:41 | pc=C006",
    ];
    check_rows(&rt, &rows);
}

#[test]
fn illegal_words_are_not_taken(rt: HostRuntime) {
    // the last one is legal: RRC &X
    let words = [
        0x0000, 0x0FFF, 0x1301, 0x1FFF, 0x10C5, 0x11C5, 0x12C5, 0x1030, 0x1022, 0x1103, 0x1012,
    ];
    for &word in &words {
        let mut cpu = Cpu::new();
        assert_eq!(rt; cpu.try_take(word), word == 0x1012, "{word}");
        assert_eq!(rt; cpu.at_boundary(), word != 0x1012, "{word}");
        assert_eq!(rt; cpu.regs(), [0; 16], "{word}");
    }
}

#[test]
fn an_entry_pushes_pc_and_sr(rt: HostRuntime) {
    let mut cpu = Cpu::new();
    cpu.start(0xC001, 0x2201);
    cpu.begin_irq(0xFFF2);
    for &word in &["w:21FE:C000", "w:21FC:0000", "r:FFF2:D001"] {
        let Some((proposal, value)) = access(word) else {
            panic!(rt; "the word is an access");
        };
        assert!(rt; cpu.is_entering() && !cpu.at_boundary());
        assert_eq!(rt; cpu.access(), proposal);
        assert_eq!(rt; (cpu.pc(), cpu.sp()), (0xC000, 0x2200));
        assert!(rt; cpu.try_take(value));
    }
    assert!(rt; cpu.at_boundary());
    assert_eq!(rt; (cpu.pc(), cpu.sp()), (0xD000, 0x21FC));
    assert!(rt; !cpu.allows_interrupts() && !cpu.is_asleep());
    cpu.clear();
    assert_eq!(rt; cpu.regs(), [0; 16]);
}

// MOV #N,R sets all registers but R3, which stays 0; a reset sets each to 0 (docs/step.md).
#[test]
fn a_clear_sets_every_register_to_0(rt: HostRuntime) {
    let mut cpu = Cpu::new();
    set(&mut cpu, 1, 0x2200);
    set(&mut cpu, 2, 0x0107);
    for number in 4..16u16 {
        set(&mut cpu, usize::from(number), 0x0100 + number);
    }
    set(&mut cpu, 0, 0xC000);
    let before = [
        0xC000, 0x2200, 0x0107, 0, 0x0104, 0x0105, 0x0106, 0x0107, 0x0108, 0x0109, 0x010A, 0x010B,
        0x010C, 0x010D, 0x010E, 0x010F,
    ];
    assert_eq!(rt; cpu.regs(), before);
    cpu.clear();
    assert_eq!(rt; cpu.regs(), [0; 16]);
}
