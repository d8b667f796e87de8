ghost use Rattle.std.specs.Prelude.{◌≡◌, IfOk, List};
ghost use Rattle.debug_session.specs.declared.watch.Watch.{Watch};
ghost use Rattle.debug_walk.specs.{Copies.played_run, Walk.{IsStretch, Walks, place_of}};

use crate::walk::Walk;
use device_core::{Live, power_on};
use execution_flags::AuxFlag;
use hmac_core::Digest32;
use mem_map::Image;
use play_script::Script;
use std::alloc::{AllocError, Global};

/// What is played: the key and the image that a device is powered on with, and a script.
#[derive(Clone, Copy)]
pub struct Run<'a> {
    key: &'a [u8; 64],
    image: &'a Image,
    script: &'a Script,
}

impl<'a> Run<'a> {
    pub fn new(key: &'a [u8; 64], image: &'a Image, script: &'a Script) -> Run<'a>
        ensures key { result.key.now ≡ key.now }
        ensures image { result.image.now ≡ image.now }
        ensures script { result.script.now ≡ script.now }
    {
        Run { key, image, script }
    }

    /// A walk that stands at place 0.
    pub fn begin<D: Digest32>(&self, alloc: Global) -> Result<Walk<'a, D>, AllocError>
        ensures walks { IfOk result (λ walk. Walks D.hash
            (played_run D.hash self.now) walk) }
        ensures place { IfOk result (λ walk. place_of walk ≡ 0) }
        ensures stretch { (watches : List Watch)
            → IfOk result (λ walk. IsStretch watches (played_run D.hash self.now) 0 walk.stretch) }
    {
        let device = power_on::<D, AuxFlag>(alloc, self.key, self.image, AuxFlag::new())?;
        Ok(Walk::at(Live::Held(device), self.script.playback()))
    }
}
