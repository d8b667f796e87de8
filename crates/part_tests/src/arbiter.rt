use device_types::Access;
use mem_map::{Image, Memory, exchange};
use std::test::Fail;
use word_arith::Size;

fn word_at(place: u16) -> Option<Access> {
    Some(Access::Read(place, Size::Word))
}

fn byte_at(place: u16) -> Option<Access> {
    Some(Access::Read(place, Size::Byte))
}

fn word_to(place: u16, number: u16) -> Option<Access> {
    Some(Access::Write(place, Size::Word, number))
}

fn byte_to(place: u16, number: u16) -> Option<Access> {
    Some(Access::Write(place, Size::Byte, number))
}

// Memory has 5678 at 0300 and 9ABC at 0302 before each step. A row has the accesses of the
// processor and of the DMA, what the DMA reads, and the words at both places after the step.
#[test]
fn the_dma_sees_what_the_processor_writes(rt: HostRuntime) -> Result<(), Fail> {
    let rows = [
        (None, None, 0, (0x5678, 0x9ABC)),
        (word_at(0x300), word_at(0x302), 0x9ABC, (0x5678, 0x9ABC)),
        (
            Some(Access::Fetch(0x302)),
            byte_at(0x303),
            0x9A,
            (0x5678, 0x9ABC),
        ),
        (None, word_to(0x300, 0x1234), 0, (0x1234, 0x9ABC)),
        // a word that is written is read in the same step
        (
            word_to(0x300, 0x1234),
            word_at(0x300),
            0x1234,
            (0x1234, 0x9ABC),
        ),
        (
            word_to(0x300, 0x1234),
            byte_at(0x301),
            0x12,
            (0x1234, 0x9ABC),
        ),
        (
            word_to(0x300, 0x1234),
            Some(Access::Fetch(0x300)),
            0x1234,
            (0x1234, 0x9ABC),
        ),
        (
            word_to(0x300, 0x1234),
            word_at(0x302),
            0x9ABC,
            (0x1234, 0x9ABC),
        ),
        // and a byte as a part of a word
        (
            byte_to(0x301, 0x12),
            word_at(0x300),
            0x1278,
            (0x1278, 0x9ABC),
        ),
        (byte_to(0x302, 0x12), byte_at(0x303), 0x9A, (0x5678, 0x9A12)),
        // a read of the processor, which was made before, changes nothing
        (word_at(0x300), word_to(0x300, 0x1234), 0, (0x1234, 0x9ABC)),
        // of two writes to one place the DMA's stays
        (
            word_to(0x300, 0x1234),
            word_to(0x300, 0x4321),
            0,
            (0x4321, 0x9ABC),
        ),
        (
            word_to(0x300, 0x1234),
            byte_to(0x300, 0xFF),
            0,
            (0x12FF, 0x9ABC),
        ),
        (
            byte_to(0x300, 0xFF),
            word_to(0x300, 0x1234),
            0,
            (0x1234, 0x9ABC),
        ),
        // a write to the key is not taken, so it is not seen
        (
            word_to(0x6A00, 0x1234),
            word_at(0x6A00),
            0x0100,
            (0x5678, 0x9ABC),
        ),
    ];
    let mut key = [0; 64];
    key[1] = 1;
    for (number, (cpu, dma, value, words)) in rows.iter().enumerate() {
        let image = Image::new(rt.alloc())?;
        let mut memory = Memory::new(rt.alloc(), &key, &image)?;
        memory.write(0x300, Size::Word, 0x5678);
        memory.write(0x302, Size::Word, 0x9ABC);
        assert_eq!(rt; exchange(&mut memory, *cpu, *dma), *value, "row {number}");
        let after = (
            memory.read(0x300, Size::Word),
            memory.read(0x302, Size::Word),
        );
        assert_eq!(rt; after, *words, "row {number}");
    }
    Ok(())
}
