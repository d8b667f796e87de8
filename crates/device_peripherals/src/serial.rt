ghost use Rattle.std.specs.Prelude.{◌≡◌, [], IfOk, slice_index};
ghost use Rattle.part_definitions.specs.{Part.{Takes, Answers, Becomes}, Serial.{Arrival, Load, Store, DeviceReset, waiting_bytes, has_room, serial_read, serial_word, serial_status, serial_requests, byte_sent}};

use crate::part::{covers_byte, part_of_word, register_place};
use crate::register::Register;
use crate::sent_byte::byte_sent;
use crate::taken_byte::{SRXD, takes_byte};
use circular_buffer::HeapCircularBuffer;
use device_types::SERIAL;
use std::alloc::{AllocError, Global};
use word_arith::Size;

const SCTL: u16 = SERIAL.first;

const SSTAT: u16 = SERIAL.first + 2;

// How many received bytes can wait.
const ROOM: usize = 64;

/// The serial port. Bit 0 of SCTL enables the receive interrupt, bits 0 and 1 of SSTAT say that a
/// byte waits and that one was dropped, SRXD gives the oldest byte that waits, STXD sends one.
#[derive(Debug, Drop)]
pub struct Serial {
    control: Register,
    queue: HeapCircularBuffer<u8>,
    has_dropped: bool,
}

impl Serial {
    ghost use Rattle.device_peripherals.specs.Serial.{SerialStandsFor};

    /// A port at which nothing arrived. It takes the memory of its queue, and the only memory.
    pub fn new(alloc: Global) -> Result<Serial, AllocError>
        ensures { IfOk result (λ port. SerialStandsFor port []) }
    {
        Ok(Serial {
            control: Register::new(SCTL),
            queue: HeapCircularBuffer::with_capacity(alloc, ROOM)?,
            has_dropped: false,
        })
    }

    /// A port at which the same happened. It takes the memory of its queue too.
    pub fn try_clone(&self, alloc: Global) -> Result<Serial, AllocError>
        ensures { IfOk result (λ other. Becomes SerialStandsFor self.now (λ events. events) other) }
    {
        let mut queue = HeapCircularBuffer::with_capacity(alloc, self.queue.capacity())?;
        let (front, back) = self.queue.as_slices();
        queue.fill_from_slice(front);
        queue.fill_from_slice(back);
        Ok(Serial {
            control: self.control,
            queue,
            has_dropped: self.has_dropped,
        })
    }

    /// A byte arrives. The answer is false where there is no room: the byte is dropped.
    pub fn arrive(&mut self, byte: u8) -> bool
        ensures room { Answers SerialStandsFor self.old has_room result }
        ensures stands { Takes SerialStandsFor self.old (Arrival byte) self.new }
    {
        let room = self.queue.try_push_back(byte).is_ok();
        self.has_dropped = self.has_dropped || !room;
        room
    }

    /// A read or fetch of the processor; 0 where there is no register of the port. One that covers
    /// the low byte of SRXD takes the byte that it gives.
    pub fn read(&mut self, place: u16, size: Size) -> u16
        ensures number { Answers SerialStandsFor self.old
            (λ events. serial_read events place size) result }
        ensures stands { Takes SerialStandsFor self.old (Load place size) self.new }
    {
        let number = self.peek(place, size);
        if takes_byte(place, size) {
            self.queue.pop_front();
        }
        number
    }

    /// What [`Serial::read`] would give.
    pub fn peek(&self, place: u16, size: Size) -> u16
        ensures { Answers SerialStandsFor self.now
            (λ events. serial_read events place size) result }
    {
        part_of_word(self.word(register_place(place)), place, size)
    }

    // The word of the register at this even address.
    fn word(&self, register: u16) -> u16
        ensures { Answers SerialStandsFor self.now (λ events. serial_word events register) result }
    {
        match register {
            SCTL => self.control.word() % 2,
            SSTAT => self.status(),
            SRXD => self.oldest(),
            _ => 0,
        }
    }

    fn status(&self) -> u16
        ensures { Answers SerialStandsFor self.now serial_status result }
    {
        u16::from(!self.queue.is_empty()) + 2 * u16::from(self.has_dropped)
    }

    // The oldest byte that waits, 0 where none does.
    fn oldest(&self) -> u16
        ensures { Answers SerialStandsFor self.now
            (λ events. slice_index (waiting_bytes events) 0) result }
    {
        self.queue.front().copied().map_or(0, u16::from)
    }

    /// A write of the processor, and the byte that it sends. One that covers the low byte of SSTAT
    /// forgets that a byte was dropped; one that covers the low byte of STXD sends that byte.
    pub fn write(&mut self, place: u16, size: Size, value: u16) -> Option<u8>
        ensures sent { result ≡ byte_sent place size value }
        ensures stands { Takes SerialStandsFor self.old (Store place size value) self.new }
    {
        self.control.write(place, size, value);
        if covers_byte(place, size, SSTAT) {
            self.has_dropped = false;
        }
        byte_sent(place, size, value)
    }

    /// Whether the port asks for an interrupt.
    pub fn request(&self) -> bool
        ensures { Answers SerialStandsFor self.now serial_requests result }
    {
        !self.queue.is_empty() && self.control.word() % 2 == 1
    }

    /// A reset.
    pub fn clear(&mut self)
        ensures { Takes SerialStandsFor self.old DeviceReset self.new }
    {
        self.control = Register::new(SCTL);
        self.queue.clear();
        self.has_dropped = false;
    }
}
