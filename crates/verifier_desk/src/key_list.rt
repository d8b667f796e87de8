ghost use Rattle.std.specs.{Prelude.{◌≡◌, ◌<◌, ◌++◌, ◌∷◌, [], ℕ, false, Some, None, IfSome, IfNone, OnOk, length, slice_index_or}, List.position_from, Option.is_some, Str.bytes_eq};
ghost use Rattle.text_scan.specs.{LineFold.TakesLine, Reader.Reads};
ghost use Rattle.verifier_desk.specs.DeviceKey.{DeviceKey as DeviceFields, devices_of, has_key, key_named, with_device, with_line};

use crate::device_key::{DeviceKey, read_device};
use crate::places::Places;
use std::alloc::{AllocError, Global};
use std::marker::Model;
use text_scan::{FaultKind, LineReader, TextFault, WordFault, read_text};

/// The devices of a file of keys in its order, with their places by names and by keys.
#[derive(Drop)]
pub struct KeyList {
    devices: Vec<DeviceKey>,
    names: Places,
    keys: Places,
}

/// Seen as its devices.
impl Model for KeyList {
    ghost use Rattle.std.specs.Prelude.{List};
    ghost use Rattle.verifier_desk.specs.{DeviceKey.{DeviceKey as DeviceFields, ArePlaced, place_in}, Standing.AreDistinct};

    ghost Value = { List DeviceFields };

    ghost view = { λ list. list.devices.items };

    ghost invariant = { λ list. AreDistinct list.devices.items
        × ArePlaced (λ device. device.name) list.devices.items (place_in list.names)
        × ArePlaced (λ device. device.key) list.devices.items (place_in list.keys) };
}

impl<'a> LineReader<'a> for KeyList {
    ghost with_line = { with_line };

    #[tactic(auto, unfolding(crate::specs::DeviceKey::with_line))]
    fn take(&mut self, alloc: Global, line: &'a [u8]) -> Result<(), WordFault> {
        let device = read_device(alloc, line)?;
        self.add(alloc, device)
    }
}

impl KeyList {
    fn new(alloc: Global) -> KeyList
        ensures { result ≡ [] }
    {
        KeyList {
            devices: Vec::new(alloc),
            names: Places::new(alloc),
            keys: Places::new(alloc),
        }
    }

    // Puts a device after the others, where its name and its key are new.
    fn add(&mut self, alloc: Global, device: DeviceKey) -> Result<(), WordFault>
        ensures { TakesLine result self.new (with_device self.old device) }
    {
        if self.has_name(device.name()) || self.has_key(device.key()) {
            return Err(WordFault::Kind(FaultKind::Twice));
        }
        self.push(alloc, device).map_err(WordFault::Memory)
    }

    // Puts a device with a new name and a new key after the others.
    fn push(&mut self, alloc: Global, device: DeviceKey) -> Result<(), AllocError>
        requires name { key_named device.name self.old ≡ None }
        requires key { has_key device.key self.old ≡ false }
        ensures { OnOk result (self.new ≡ self.old ++ device ∷ []) }
    {
        let place = self.devices.len();
        self.names.insert(alloc, device.name(), place)?;
        self.keys.insert(alloc, device.key(), place)?;
        self.devices.push(device)?;
        Ok(())
    }

    pub fn len(&self) -> usize
        ensures { result ≡ length self.now }
    {
        self.devices.len()
    }

    /// The place of the device of a name.
    pub fn place_of(&self, name: &[u8]) -> Option<usize>
        ensures within { IfSome result (λ place. place < length self.now) }
        ensures found { IfSome result (λ place. (d : DeviceFields)
            → (slice_index_or self.now place d).name ≡ name.now) }
        ensures key { IfSome result (λ place. (d : DeviceFields)
            → key_named name.now self.now ≡ Some (slice_index_or self.now place d).key) }
        ensures none { IfNone result (key_named name.now self.now ≡ None) }
    {
        self.first_named(name)
    }

    // The place of the first device of a name. A place that was noted before memory ran out has no
    // device, or another one.
    fn first_named(&self, name: &[u8]) -> Option<usize>
        ensures { result ≡ position_from (λ device. bytes_eq device.name name.now) 0 self.now }
    {
        let place = self.names.get(name)?;
        if place >= self.devices.len() {
            return None;
        }
        if self.devices[place].name() == name {
            Some(place)
        } else {
            None
        }
    }

    // Whether a device has this name.
    fn has_name(&self, name: &[u8]) -> bool
        ensures { result ≡ is_some (key_named name.now self.now) }
    {
        self.place_of(name).is_some()
    }

    // Whether a device has this key.
    fn has_key(&self, key: &[u8; 64]) -> bool
        ensures { result ≡ has_key key.now self.now }
    {
        match self.keys.get(key) {
            Some(place) => place < self.devices.len() && self.devices[place].key() == key,
            None => false,
        }
    }

    /// Its devices, in the order of the lines.
    pub fn devices(&self) -> &[DeviceKey]
        ensures { result.now ≡ self.now }
    {
        &self.devices
    }

    /// The device at a place.
    pub fn device_at(&self, place: usize) -> &DeviceKey
        requires { place < length self.now }
        ensures { (d : DeviceFields) → result.now ≡ slice_index_or self.now place d }
    {
        &self.devices[place]
    }
}

/// The devices of a text in the order of its lines, or the first fault.
pub fn read_keys(alloc: Global, text: &[u8]) -> Result<KeyList, TextFault>
    ensures { Reads result (devices_of text.now) }
{
    read_text(alloc, KeyList::new(alloc), text)
}
