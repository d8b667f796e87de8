use device_core::{Device, Held, power_on};
use device_types::TraceFlag;
use execution_flags::AuxFlag;
use hmac_core::{Digest32, Sha256Digest};
use mem_map::Image;
use std::alloc::{AllocError, Global};

/// A device at power-on, under SHA-256 and the flag of trusted interrupts.
pub type PoweredDevice = Device<Held, Sha256Digest, AuxFlag>;

/// How devices are powered on.
pub trait Power {
    ghost use Rattle.std.specs.Prelude.{[], IfErr, IfOk};
    ghost use Rattle.device_types.specs.Address.{Bytes, Contents};
    ghost use Rattle.device_core.specs.Device.{HeldStandsFor};
    ghost use Rattle.mem_map.specs.Image.{byte_in, image_byte};
    ghost use Rattle.device_cli.specs.Play.{start_of};

    /// Memory is refused to the device of this key and image. Where the type is not known, nothing
    /// but a refusal of `power_on` shows it.
    ghost is_refused: { Bytes → Contents → Type 0 };

    /// Takes the memory of a device.
    fn power_on(alloc: Global, key: &[u8; 64], image: &Image) -> Result<PoweredDevice, AllocError>
        ensures stands { IfOk result (λ device. HeldStandsFor
            ⟦<Sha256Digest as Digest32>⟧.hash ⟦<AuxFlag as TraceFlag>⟧.flag device
            (start_of key.now (byte_in image.now)) []) }
        ensures refused { IfErr result (λ error.
            is_refused key.now (image_byte (byte_in image.now))) };
}

/// With memory of the system.
pub struct SystemPower;

impl Power for SystemPower {
    ghost is_refused = { λ key image. Unit {0} };

    fn power_on(alloc: Global, key: &[u8; 64], image: &Image) -> Result<PoweredDevice, AllocError> {
        power_on::<Sha256Digest, AuxFlag>(alloc, key, image, AuxFlag::new())
    }
}
