use crate::command::play_arguments::PlayArguments;
use crate::command::play_files::PlayValues;
use crate::command::telling::{Telling, tell};
use crate::command_end::CommandEnd;
use crate::ending::Ending;
use crate::power::{Power, PoweredDevice};
use crate::task::Task;
use device_play::PutFault;
use device_types::TraceFlag;
use execution_flags::AuxFlag;
use hmac_core::{Digest32, Sha256Digest};
use input_files::{Inputs, Refusal};
use outside_edge::{Shelf, Sink};
use std::alloc::{AllocError, Global};
use std::marker::PhantomData;

/// A command with the arguments `IMAGE SCRIPT KEY STEPS`, which tells this of a play.
#[derive(Clone, Copy, Debug)]
pub struct PlayCommand<'a, T> {
    pub arguments: PlayArguments<'a>,
    pub telling: PhantomData<T>,
}

impl<'a, T: Telling> Task<'a> for PlayCommand<'a, T> {
    ghost use Rattle.std.specs.Prelude.{[]};
    ghost use Rattle.mem_map.specs.Image.{byte_in};
    ghost use Rattle.device_core.specs.Device.{HeldStandsFor};
    ghost use Rattle.device_cli.specs.Play.{play_with, start_of, steps_row, steps_row_of};

    type Values = PlayValues;

    type Prepared = PoweredDevice;

    ghost row_of = { steps_row_of T.outcome };

    ghost command_row = { λ command. steps_row T.outcome
        command.arguments.files.image.name.now command.arguments.files.script.name.now
        command.arguments.files.key.name.now command.arguments.steps };

    ghost outcome = { λ command values. T.outcome (play_with command.arguments.steps values.key
        (byte_in values.image) values.script) };

    ghost is_prepared = { λ command values device. HeldStandsFor
        ⟦<Sha256Digest as Digest32>⟧.hash ⟦<AuxFlag as TraceFlag>⟧.flag device
        (start_of values.key (byte_in values.image)) [] };

    ghost once_put = { T.once_put };

    fn from_arguments(arguments: &'a [String]) -> Option<PlayCommand<'a, T>> {
        let arguments = PlayArguments::from_arguments(arguments)?;
        Some(PlayCommand {
            arguments,
            telling: PhantomData,
        })
    }

    fn read<S: Shelf>(&self, alloc: Global, shelf: &mut S) -> Result<PlayValues, Refusal> {
        self.arguments.files.read::<CommandEnd, S>(alloc, shelf)
    }

    fn prepare<P: Power>(
        &self,
        alloc: Global,
        values: &PlayValues,
    ) -> Result<PoweredDevice, AllocError> {
        P::power_on(alloc, &values.key, &values.image)
    }

    fn put<W: Sink>(
        &self,
        _alloc: Global,
        values: &PlayValues,
        device: PoweredDevice,
        sink: &mut W,
    ) -> Result<Ending, PutFault> {
        let script = &values.script;
        tell::<T, Sha256Digest, AuxFlag, W>(device, script, self.arguments.steps, sink)?;
        Ok(Ending::Done)
    }
}
