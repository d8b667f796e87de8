ghost use Rattle.std.specs.Prelude.{◌≡◌};

use input_files::{File, Image, Inputs, Key, Refusal, RowEnd, Script};
use outside_edge::Shelf;
use std::alloc::Global;

/// The files of a play, in the order in which they are read.
#[derive(Clone, Copy, Debug)]
pub struct PlayFiles<'a> {
    pub key: File<'a, Key>,
    pub image: File<'a, Image>,
    pub script: File<'a, Script>,
}

/// Their values: the key and the image that a device is powered on with, and the script.
#[derive(Drop)]
pub struct PlayValues {
    pub key: [u8; 64],
    pub image: mem_map::Image,
    pub script: play_script::Script,
}

impl<'a> PlayFiles<'a> {
    /// The files of these names.
    pub fn new(image: &'a str, script: &'a str, key: &'a str) -> PlayFiles<'a>
        ensures key { result.key.name.now ≡ key.now }
        ensures image { result.image.name.now ≡ image.now }
        ensures script { result.script.name.now ≡ script.now }
    {
        PlayFiles {
            key: File::new(key, Key),
            image: File::new(image, Image),
            script: File::new(script, Script),
        }
    }
}

impl Inputs for PlayFiles<'_> {
    ghost use Rattle.std.specs.Prelude.{ℕ, List, Option};
    ghost use Rattle.mem_map.specs.Image.{byte_in};
    ghost use Rattle.play_script.specs.Script.{TimedEvent};
    ghost use Rattle.device_cli.specs.Play.{read_device};

    type Values = PlayValues;

    ghost Meaning = { (List ℕ × (ℕ → Option ℕ)) × List TimedEvent };

    ghost meaning = { λ values. ((values.key, byte_in values.image), values.script) };

    ghost row_with = { λ Outcome files onward. read_device files.image.name.now
        files.script.name.now files.key.name.now
        (λ key image script. onward ((key, image), script)) };

    fn read<E: RowEnd, S: Shelf>(
        &self,
        alloc: Global,
        shelf: &mut S,
    ) -> Result<PlayValues, Refusal> {
        let files = ((self.key, self.image), self.script);
        let values = files.read::<E, S>(alloc, shelf)?;
        let ((key, image), script) = values;
        Ok(PlayValues { key, image, script })
    }
}
