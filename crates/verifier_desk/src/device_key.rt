ghost use Rattle.std.specs.{Prelude.{◌≡◌, ◌≤◌, length}, List.list_all};
ghost use Rattle.text_scan.specs.{Reader.ReadsWord, Word.words_of};
ghost use Rattle.verifier_desk.specs.DeviceKey.{device_of, is_name_character, name_fault};

use std::alloc::Global;
use std::marker::Model;
use text_scan::{FaultKind, WordFault, Words};

// The most characters of a name.
const LONGEST_NAME: usize = 32;

/// A device's name and its key.
#[derive(Drop)]
pub struct DeviceKey {
    name: Vec<u8>,
    key: [u8; 64],
}

impl Model for DeviceKey {
    ghost use Rattle.std.specs.Prelude.{◌≤◌, vec_len};
    ghost use Rattle.verifier_desk.specs.DeviceKey.{DeviceKey as DeviceFields};

    ghost Value = { DeviceFields };

    ghost view = { λ device. record { name = device.name.items; key = device.key } };

    ghost invariant = { λ device. vec_len device.name ≤ 32 };
}

impl DeviceKey {
    pub fn name(&self) -> &[u8]
        ensures bytes { result.now ≡ self.now.name }
        ensures short { length result.now ≤ 32 }
    {
        &self.name
    }

    pub fn key(&self) -> &[u8; 64]
        ensures { result.now ≡ self.now.key }
    {
        &self.key
    }
}

/// The device of a line `device NAME H128`.
#[tactic(auto, unfolding(crate::specs::DeviceKey::device_of))]
pub fn read_device(alloc: Global, line: &[u8]) -> Result<DeviceKey, WordFault>
    ensures { ReadsWord result (device_of (words_of line.now)) }
{
    let mut words = Words::new(line);
    words.keyword(b"device")?;
    let name = words.word()?;
    check_name(name)?;
    let key = words.block::<64>()?;
    words.end()?;
    let name = name.to_vec(alloc).map_err(WordFault::Memory)?;
    Ok(DeviceKey { name, key })
}

/// A name has 1 to 32 letters, digits and `_`.
pub fn check_name(name: &[u8]) -> Result<(), FaultKind>
    ensures { result ≡ name_fault name.now }
{
    if !is_name(name) {
        return Err(FaultKind::Digit);
    }
    if name.is_empty() || name.len() > LONGEST_NAME {
        return Err(FaultKind::Count);
    }
    Ok(())
}

fn is_name(word: &[u8]) -> bool
    ensures { result ≡ list_all is_name_character word.now }
{
    word.iter().all(|byte| is_name_character(*byte))
}

fn is_name_character(byte: u8) -> bool
    ensures { result ≡ is_name_character byte }
{
    byte.is_ascii_alphanumeric() || byte == b'_'
}
