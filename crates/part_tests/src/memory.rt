use device_types::Bounds;
use mem_map::{Image, Memory};
use std::alloc::{AllocError, Global};
use std::test::Fail;
use word_arith::Size;

// The bytes 1 and 2 at the ends of RAM, 3 and 4 at those of program and vectors, and two at the
// EXEC word.
fn image_of_six(alloc: Global) -> Result<Image, AllocError> {
    let mut image = Image::new(alloc)?;
    image.set(0x0200, 1);
    image.set(0x21FF, 2);
    image.set(0xC000, 3);
    image.set(0xFFFF, 4);
    image.set(0x0268, 5);
    image.set(0x0269, 6);
    Ok(image)
}

#[test]
fn an_image_takes_bytes_of_ram_program_and_vectors(rt: HostRuntime) -> Result<(), Fail> {
    let mut image = Image::new(rt.alloc())?;
    for &(place, is_place) in &[
        (0x01FF, false),
        (0x0200, true),
        (0x21FF, true),
        (0x2200, false),
        (0xBFFF, false),
        (0xC000, true),
        (0xFFFF, true),
    ] {
        assert_eq!(rt; image.set(place, 7), is_place, "at {place}");
        assert_eq!(rt; image.get(place), is_place.then_some(7), "at {place}");
    }
    Ok(())
}

#[test]
fn each_region_reads_as_at_power_on(rt: HostRuntime) -> Result<(), Fail> {
    let alloc = rt.alloc();
    let mut key = [0xEE; 64];
    key[0] = 0x11;
    key[63] = 0x22;
    let memory = Memory::new(alloc, &key, &image_of_six(alloc)?)?;
    for &(place, size, want) in &[
        (0x0000, Size::Word, 0),
        (0x01FF, Size::Byte, 0),
        (0x0200, Size::Word, 1),
        (0x0268, Size::Word, 0),
        (0x21FE, Size::Word, 0x0200),
        (0x2200, Size::Word, 0),
        (0x4000, Size::Word, 0),
        (0x69FE, Size::Word, 0),
        (0x6A00, Size::Word, 0xEE11),
        (0x6A3E, Size::Word, 0x22EE),
        (0x6A3F, Size::Word, 0x22EE),
        (0x6A40, Size::Word, 0),
        (0x9FFF, Size::Byte, 0),
        (0xA000, Size::Word, 0x4303),
        (0xBFFD, Size::Byte, 0x43),
        (0xBFFE, Size::Word, 0x4130),
        (0xC000, Size::Word, 3),
        (0xFFFF, Size::Word, 0x0400),
    ] {
        assert_eq!(rt; memory.read(place, size), want, "at {place}");
    }
    Ok(())
}

#[test]
fn writes_stay_where_the_map_takes_them(rt: HostRuntime) -> Result<(), Fail> {
    let alloc = rt.alloc();
    let mut memory = Memory::new(alloc, &[0; 64], &Image::new(alloc)?)?;
    memory.set_exec(true);
    for &(place, size, value, want) in &[
        (0x01FE, Size::Word, 0x1234, 0),
        (0x0260, Size::Word, 0x1234, 0x1234),
        (0x0263, Size::Byte, 0x34, 0x0034),
        (0x0265, Size::Word, 0x5678, 0x5678),
        (0x0268, Size::Word, 0x1234, 1),
        (0x2200, Size::Word, 0x1234, 0),
        (0x43FE, Size::Word, 0x1234, 0x1234),
        (0x4400, Size::Word, 0x1234, 0),
        (0x6A00, Size::Word, 0x1234, 0),
        (0xBFFE, Size::Word, 0x1234, 0x4130),
        (0xFFFE, Size::Word, 0x1234, 0x1234),
    ] {
        memory.write(place, size, value);
        assert_eq!(rt; memory.read(place, size), want, "at {place}");
    }
    let bounds = Bounds {
        er_min: 0x1234,
        er_max: 0x3400,
        or_min: 0x5678,
        or_max: 0,
    };
    assert_eq!(rt; memory.bounds(), bounds);
    assert_eq!(rt;
        memory.span(0x0260, 0x0263),
        Some(b"\x34\x12\x00\x34".as_slice())
    );
    assert_eq!(rt; memory.span(0x21FF, 0x2200), None);
    Ok(())
}
