ghost use Rattle.std.specs.Prelude.{◌≡◌, ◌<◌, ◌↔◌, ℕ, List, Ok, None, IfOk, OnErr, length, slice_index_or, vec_len, []};
ghost use Rattle.sha2.specs.Sha256.{sha256};
ghost use Rattle.mem_map.specs.Image.{byte_in};
ghost use Rattle.text_scan.specs.Word.{words_of};
ghost use Rattle.desk_memory.specs.{Entry.{last_in, state_under}, KeyMark.key_mark};
ghost use Rattle.verifier_desk.specs.{declared.desk_line.SaidLine.TheVariants.Silent, DeskLine.{Own, desk_line_of_words, line_in, own_or_none, said_at, DeviceLine}, DeviceKey.{DeviceKey as DeviceFields, key_named}, Replies.DeskFields, Reply.reply_in};

use crate::answer_fault::AnswerFault;
use crate::answer_text::answer_line;
use crate::desk_line::{OwnLine, SaidLine, read_desk_line};
use crate::device_answer::answer_device;
use crate::key_list::KeyList;
use crate::noting::note_new;
use crate::reply::Reply;
use desk_memory::{DeviceState, Entry, Memory, mark_of, state_of};
use mem_map::Image;
use report_verifier::{Policy, Verifier};
use std::alloc::{AllocError, Global};

/// A desk: its devices with their states, in one order, and what it judges their reports by.
#[derive(Drop)]
pub struct Desk {
    alloc: Global,
    keys: KeyList,
    states: Vec<DeviceState>,
    image: Image,
    policy: Policy,
    ghost whole: { vec_len states ≡ length keys },
}

// The state of the device at a place under its key, as these entries have it.
fn state_at(keys: &KeyList, place: usize, entries: &[Entry]) -> DeviceState
    requires { place < length keys.now }
    ensures { (d : DeviceFields) → result
        ≡ state_under (key_mark sha256 (slice_index_or keys.now place d).key)
        (last_in entries.now (slice_index_or keys.now place d).name) }
{
    let device = keys.device_at(place);
    let mark = mark_of(device.key());
    state_of(entries, device.name(), &mark)
}

// The states of devices under their keys, in their order, as these entries have them.
fn states_in(
    alloc: Global,
    keys: &KeyList,
    entries: &[Entry],
) -> Result<Vec<DeviceState>, AllocError>
    ensures count { IfOk result (λ states. vec_len states ≡ length keys.now) }
    ensures states { IfOk result (λ states. (i : ℕ) (d : DeviceFields) (s : DeviceState)
        → i < length keys.now
        → slice_index_or states.items i s
        ≡ state_under (key_mark sha256 (slice_index_or keys.now i d).key)
        (last_in entries.now (slice_index_or keys.now i d).name)) }
{
    let mut states = Vec::new(alloc);
    for place in 0..keys.len() {
        states.push(state_at(keys, place, entries))?;
    }
    Ok(states)
}

impl Desk {
    ghost use Rattle.verifier_desk.specs.{Answering.{Answers, OnlyNotes}, Desk.{DeskStandsFor, desk_with, no_lines_of}};

    /// A desk of these devices, in the states that these entries have.
    pub fn new(
        alloc: Global,
        keys: KeyList,
        image: Image,
        policy: Policy,
        entries: &[Entry],
    ) -> Result<Desk, AllocError>
        ensures { IfOk result (λ desk. DeskStandsFor desk
            (desk_with keys (byte_in image) policy entries.now) no_lines_of) }
    {
        let states = states_in(alloc, &keys, entries)?;
        Ok(Desk {
            alloc,
            keys,
            states,
            image,
            policy,
        })
    }

    /// The reply to a line of at most 65,536 bytes, `None` exactly where it has no words; where it
    /// has a new number, the state that it leads to is noted. After an error the desk is as it was.
    pub fn answer<M: Memory>(
        &mut self,
        line: &[u8],
        memory: &mut M,
    ) -> Result<Option<Reply>, AnswerFault>
        ensures answers { (fields : DeskFields) (lines : List ℕ → List DeviceLine)
            → DeskStandsFor self.old fields lines
            → Answers M.Memory memory.old memory.new self.new fields lines
            (desk_line_of_words fields.devices (words_of line.now)) (reply_in result) }
        ensures kept { OnErr result (self.new ≡ self.old) }
        ensures silent { IfOk result (λ reply. (reply ≡ None) ↔ (words_of line.now ≡ [])) }
        ensures only { OnlyNotes M.Memory memory.old memory.new }
    {
        self.answer_said(&read_desk_line(line), memory)
    }

    // Answers what a line says.
    fn answer_said<M: Memory>(
        &mut self,
        said: &SaidLine<'_>,
        memory: &mut M,
    ) -> Result<Option<Reply>, AnswerFault>
        ensures answers { (fields : DeskFields) (lines : List ℕ → List DeviceLine)
            → DeskStandsFor self.old fields lines
            → Answers M.Memory memory.old memory.new self.new fields lines
            (said_at fields.devices said.now) (reply_in result) }
        ensures kept { OnErr result (self.new ≡ self.old) }
        ensures silent { IfOk result (λ reply. (reply ≡ None) ↔ (said.now ≡ Silent)) }
        ensures only { OnlyNotes M.Memory memory.old memory.new }
    {
        match said {
            SaidLine::Silent => Ok(None),
            SaidLine::Foreign => Ok(Some(Reply::of_no_device())),
            SaidLine::Own(own) => Ok(Some(self.answer_own(own, memory)?)),
        }
    }

    // Answers a line of a device, if the desk has that device.
    fn answer_own<M: Memory>(
        &mut self,
        own: &OwnLine<'_>,
        memory: &mut M,
    ) -> Result<Reply, AnswerFault>
        ensures answers { (fields : DeskFields) (lines : List ℕ → List DeviceLine)
            → DeskStandsFor self.old fields lines
            → Answers M.Memory memory.old memory.new self.new fields lines
            (own_or_none (key_named own.now.name.now fields.devices) own.now) result }
        ensures kept { OnErr result (self.new ≡ self.old) }
        ensures only { OnlyNotes M.Memory memory.old memory.new }
    {
        match self.keys.place_of(own.name) {
            None => Ok(Reply::of_no_device()),
            Some(place) => self.answer_at(place, own, memory),
        }
    }

    // Answers a line of the device at a place.
    fn answer_at<M: Memory>(
        &mut self,
        place: usize,
        own: &OwnLine<'_>,
        memory: &mut M,
    ) -> Result<Reply, AnswerFault>
        requires { place < length self.old.keys }
        ensures answers { (fields : DeskFields) (lines : List ℕ → List DeviceLine)
            (device : DeviceFields) → DeskStandsFor self.old fields lines
            → ((d : DeviceFields) → slice_index_or fields.devices place d ≡ device)
            → Answers M.Memory memory.old memory.new self.new fields lines
            (Own device (line_in own.now)) result }
        ensures kept { OnErr result (self.new ≡ self.old) }
        ensures only { OnlyNotes M.Memory memory.old memory.new }
    {
        let mut state = self.states[place];
        let device = self.keys.device_at(place);
        let verifier = Verifier {
            key: device.key(),
            image: &self.image,
            policy: &self.policy,
        };
        let outcome = answer_device(self.alloc, &verifier, &mut state, own)?;
        note_new(outcome.is_new, device, state, memory)?;
        let line = answer_line(device.key(), device.name(), own.number, outcome.answer);
        self.states[place] = state;
        Ok(Reply::new(line, outcome.is_new))
    }
}
