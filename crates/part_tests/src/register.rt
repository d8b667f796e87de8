use device_peripherals::{Register, covers_byte, part_of_word, register_place};
use word_arith::Size::{self, Byte, Word};

#[test]
fn writes_of_words_and_bytes(rt: HostRuntime) {
    let mut register = Register::new(0x0164);
    // place, size, number, the word after
    let writes: [(u16, Size, u16, u16); 6] = [
        (0x0164, Word, 0x1234, 0x1234),
        (0x0164, Byte, 0xFF56, 0x1256),
        (0x0165, Byte, 0xFF78, 0x7856),
        (0x0163, Byte, 0x0001, 0x7856),
        (0x0166, Word, 0x0001, 0x7856),
        (0x0165, Word, 0x9ABC, 0x9ABC),
    ];
    for &(place, size, number, after) in &writes {
        register.write(place, size, number);
        assert_eq!(rt; register.word(), after, "{place}");
    }
}

#[test]
fn parts_of_a_word(rt: HostRuntime) {
    for &(place, size, part) in &[
        (0x0164, Word, 0x1234),
        (0x0165, Word, 0x1234),
        (0x0164, Byte, 0x0034),
        (0x0165, Byte, 0x0012),
    ] {
        assert_eq!(rt; part_of_word(0x1234, place, size), part, "{place}");
        assert_eq!(rt; register_place(place), 0x0164, "{place}");
    }
    // the low byte of a register is covered by words and by its own byte
    for &(place, size, answer) in &[
        (0x0164, Word, true),
        (0x0165, Word, true),
        (0x0164, Byte, true),
        (0x0165, Byte, false),
        (0x0166, Word, false),
    ] {
        assert_eq!(rt; covers_byte(place, size, 0x0164), answer, "{place}");
    }
}
