use Act::{Accept, Clear, Ticks, Write};
use device_peripherals::Timer;
use word_arith::Size::{self, Byte, Word};

const TCTL: u16 = 0x0160;

const TCNT: u16 = 0x0162;

const TCMP: u16 = 0x0164;

// What happens to a timer.
#[derive(Clone, Copy, Debug)]
enum Act {
    Write(u16, Size, u16),
    Ticks(u32),
    Accept,
    Clear,
}

fn apply(timer: &mut Timer, act: Act) {
    match act {
        Write(place, size, number) => timer.write(place, size, number),
        Ticks(steps) => {
            for _step in 0..steps {
                timer.tick();
            }
        }
        Accept => timer.accept(),
        Clear => timer.clear(),
    }
}

// A timer to which this happened.
fn timer_after(acts: &[Act]) -> Timer {
    let mut timer = Timer::new();
    for act in acts {
        apply(&mut timer, *act);
    }
    timer
}

#[test]
fn counts_steps_since_the_last_write(rt: HostRuntime) {
    let to_nine = Write(TCMP, Word, 9);
    let run = Write(TCTL, Word, 3);
    // what happens, TCNT after it, whether the timer requests
    let rows: [(&[Act], u16, bool); 20] = [
        (&[to_nine, Ticks(5)], 0, false),
        (&[to_nine, run, Ticks(1)], 0, false),
        (&[to_nine, run, Ticks(5)], 4, false),
        (&[to_nine, run, Ticks(10)], 9, false),
        (&[to_nine, run, Ticks(11)], 0, true),
        (&[to_nine, run, Ticks(14)], 3, true),
        (&[to_nine, Write(TCTL, Word, 1), Ticks(14)], 3, false),
        (&[to_nine, Write(TCTL, Word, 2), Ticks(14)], 0, false),
        (&[run, Ticks(1)], 0, false),
        (&[run, Ticks(2)], 0, true),
        (&[to_nine, run, Ticks(5), Write(TCTL, Word, 2)], 0, false),
        (
            &[to_nine, run, Ticks(4), Write(TCNT, Word, 7), Ticks(1)],
            4,
            false,
        ),
        (&[to_nine, run, Ticks(11), Write(TCNT, Word, 7)], 0, true),
        (&[to_nine, run, Ticks(14), run, Ticks(3)], 2, false),
        (&[to_nine, run, Ticks(14), to_nine, Ticks(3)], 2, false),
        (
            &[to_nine, run, Ticks(14), Write(TCTL + 1, Byte, 0), Ticks(3)],
            2,
            false,
        ),
        (
            &[to_nine, run, Ticks(14), Write(TCMP + 1, Byte, 0), Ticks(3)],
            2,
            false,
        ),
        (&[to_nine, run, Ticks(14), Accept, Ticks(3)], 6, false),
        (&[to_nine, run, Ticks(10), Accept, Ticks(1)], 0, true),
        (&[to_nine, run, Ticks(14), Clear, Ticks(3)], 0, false),
    ];
    for &(acts, count, requests) in &rows {
        let timer = timer_after(acts);
        assert_eq!(rt; timer.read(TCNT, Word), count, "{acts:?}");
        assert_eq!(rt; timer.request(), requests, "{acts:?}");
    }
}

#[test]
fn greatest_compare_has_65_536_numbers(rt: HostRuntime) {
    let run = [
        Write(TCMP, Word, 0xFFFF),
        Write(TCTL, Word, 3),
        Ticks(65_536),
    ];
    let mut timer = timer_after(&run);
    assert_eq!(rt; timer.read(TCNT, Word), 0xFFFF);
    assert!(rt; !timer.request());
    timer.tick();
    assert_eq!(rt; timer.read(TCNT, Word), 0);
    assert!(rt; timer.request());
}

#[test]
fn reads_of_registers(rt: HostRuntime) {
    let control = Write(TCTL, Word, 0xFFFF);
    let compare = Write(TCMP, Word, 0x1234);
    // what happens, place and size of a read, what it gives
    let rows: [(&[Act], u16, Size, u16); 9] = [
        (&[control], TCTL, Word, 3),
        (&[control], TCTL, Byte, 3),
        (&[control], TCTL + 1, Byte, 0),
        (&[compare], TCMP, Word, 0x1234),
        (&[compare], TCMP + 1, Word, 0x1234),
        (&[compare], TCMP, Byte, 0x34),
        (&[compare], TCMP + 1, Byte, 0x12),
        (&[compare, Clear], TCMP, Word, 0),
        (&[control, compare], TCMP + 2, Word, 0),
    ];
    for &(acts, place, size, number) in &rows {
        assert_eq!(rt; timer_after(acts).read(place, size), number, "{acts:?}");
    }
}
