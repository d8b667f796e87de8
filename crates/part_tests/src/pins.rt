use device_peripherals::Pins;

#[test]
fn pins_are_as_set_last(rt: HostRuntime) {
    let mut pins = Pins::new();
    assert_eq!(rt; pins.get(), 0);
    for &word in &[0x1234, 0xFFFF, 0x0001] {
        pins.set(word);
        assert_eq!(rt; pins.get(), word);
    }
}
