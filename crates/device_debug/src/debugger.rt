ghost use Rattle.std.specs.Prelude.{◌≡◌, ◌≤◌, [], None, Some, codes, IfErr, IfOk, length};
ghost use Rattle.debug_link.specs.{Conversation.LONGEST_BODY, Writing.{Answers, CountsWriteFaults}, declared.answer_fault.AnswerFault.TheVariants.Memory};
ghost use Rattle.debug_session.specs.{Going.Standing, Session.{Session, after_request, answer_of, first_session, goes, answer_to_request, says, stands_at, until_of, with_stops}, Shown.{memory_body, registers_shown}, Stops.with_change};
ghost use Rattle.debug_walk.specs.Copies.{TrackStandsFor};
ghost use Rattle.device_debug.specs.{Going.HasArrived, Session.{DebuggerStandsFor, Gives, MayGive, run_at, view_in}};

use crate::backwards::go_back;
use crate::forwards::go_forwards;
use crate::interrupts::Interrupts;
use crate::monitor::tell;
use crate::seek::Seek;
use debug_link::{AnswerFault, Connection, PacketWriter};
use debug_session::{Command, Going, Request, Stop, StopChange, StopList, Way};
use debug_walk::{Run, Track, Walk, is_shown, shown_bytes, shown_registers};
use hmac_core::Digest32;
use outside_edge::Sink;
use std::alloc::{AllocError, Global};

/// A debugger's session: it stands at a place of a run.
#[derive(Drop)]
pub struct Debugger<'a, D: Digest32> {
    track: Track<'a, D>,
    // None once memory ran out on the way to another place.
    halted: Option<Walk<'a, D>>,
    stops: StopList,
    stop: Stop,
}

impl<'a, D: Digest32> Debugger<'a, D> {
    /// At place 1, after the boot.
    pub fn new(alloc: Global, run: Run<'a>) -> Result<Debugger<'a, D>, AllocError>
        ensures { IfOk result (λ debugger.
            (debugger.track.run ≡ run.entry)
            × DebuggerStandsFor D.hash debugger first_session) }
    {
        let track = Track::new(alloc, run);
        let halted = track.first()?;
        Ok(Debugger {
            track,
            halted: Some(halted),
            stops: StopList::new(),
            stop: Stop::Plain,
        })
    }

    // Puts the one packet of an answer.
    fn say<W: Sink + Drop>(
        &self,
        body: &[u8],
        packets: &mut PacketWriter<W>,
    ) -> Result<Connection, AnswerFault>
        requires { length body.now ≤ LONGEST_BODY }
        ensures gives { Gives D.hash W.Sink packets.old packets.new self.now self.now
            (λ session. says session body.now) result }
        ensures counts { CountsWriteFaults W.faults packets.old.sink packets.new.sink result }
    {
        packets.put(body)?;
        Ok(Connection::Open)
    }

    fn current_walk(&self) -> Result<&Walk<'a, D>, AnswerFault>
        ensures halted { IfOk result (λ halted. self.now.halted ≡ Some halted.now) }
        ensures fault { IfErr result (λ fault. (fault ≡ Memory) × (self.now.halted ≡ None)) }
    {
        match &self.halted {
            Some(halted) => Ok(halted),
            None => Err(AnswerFault::Memory),
        }
    }

    fn take_walk(&mut self) -> Result<Walk<'a, D>, AnswerFault>
        ensures halted { IfOk result (λ halted. self.old.halted ≡ Some halted) }
        ensures fault { IfErr result (λ fault. (fault ≡ Memory) × (self.old.halted ≡ None)) }
        ensures rest { self.new ≡ record self.old { halted = None } }
    {
        match self.halted.take() {
            Some(halted) => Ok(halted),
            None => Err(AnswerFault::Memory),
        }
    }

    fn show_registers<W: Sink + Drop>(
        &self,
        packets: &mut PacketWriter<W>,
    ) -> Result<Connection, AnswerFault>
        ensures gives { Gives D.hash W.Sink packets.old packets.new self.now self.now
            (λ session. says session (registers_shown (view_in D.hash self.now session.place)))
            result }
        ensures counts { CountsWriteFaults W.faults packets.old.sink packets.new.sink result }
    {
        packets.put_digits(&shown_registers(self.current_walk()?))?;
        Ok(Connection::Open)
    }

    // The bytes from an address on.
    fn show_memory<W: Sink + Drop>(
        &self,
        first: u32,
        size: u32,
        packets: &mut PacketWriter<W>,
    ) -> Result<Connection, AnswerFault>
        ensures gives { Gives D.hash W.Sink packets.old packets.new self.now self.now
            (λ session. says session (memory_body (view_in D.hash self.now session.place) first
            size)) result }
        ensures counts { CountsWriteFaults W.faults packets.old.sink packets.new.sink result }
    {
        if size == 0 {
            self.say(b"", packets)
        } else if is_shown(first) {
            packets.put_digits(&shown_bytes(self.current_walk()?, first, size))?;
            Ok(Connection::Open)
        } else {
            self.say(b"E01", packets)
        }
    }

    fn change<W: Sink + Drop>(
        &mut self,
        change: StopChange,
        packets: &mut PacketWriter<W>,
    ) -> Result<Connection, AnswerFault>
        ensures gives { Gives D.hash W.Sink packets.old packets.new self.old self.new
            (λ session. with_stops session (with_change session.stops change)) result }
        ensures counts { CountsWriteFaults W.faults packets.old.sink packets.new.sink result }
    {
        if self.stops.change(change) {
            self.say(b"OK", packets)
        } else {
            self.say(b"E01", packets)
        }
    }

    fn resume<I: Interrupts, W: Sink + Drop>(
        &mut self,
        way: Way,
        going: Going,
        interrupts: &mut I,
        packets: &mut PacketWriter<W>,
    ) -> Result<Connection, AnswerFault>
        ensures gives { MayGive D.hash W.Sink (I.left interrupts.old) (I.left interrupts.new)
            packets.old packets.new self.old self.new
            (λ interrupt session. goes (view_in D.hash self.old) interrupt session way going)
            result }
        ensures counts { CountsWriteFaults W.faults packets.old.sink packets.new.sink result }
    {
        let walk = self.take_walk()?;
        let seek = Seek::new(going, walk.level());
        match way {
            Way::Ahead => {
                let (walk, stop) = go_forwards(
                    &mut self.track,
                    &self.stops,
                    walk,
                    &seek,
                    interrupts,
                    packets,
                )?;
                self.stand(walk, stop, packets)
            }
            Way::Back => {
                let (walk, stop) = go_back(&mut self.track, &self.stops, walk, &seek, interrupts)?;
                self.stand(walk, stop, packets)
            }
        }
    }

    // Stands where a walk has arrived, for this reason, and says why.
    fn stand<W: Sink + Drop>(
        &mut self,
        halted: Walk<'a, D>,
        stop: Stop,
        packets: &mut PacketWriter<W>,
    ) -> Result<Connection, AnswerFault>
        ensures gives { (now : Standing) (session : Session)
            → HasArrived D.hash (run_at D.hash self.old) now halted.entry stop
            → TrackStandsFor D.hash self.old.track (run_at D.hash self.old)
            → self.old.stops ≡ session.stops
            → Answers (DebuggerStandsFor D.hash) W.Sink packets.old packets.new self.new
            (stands_at session now []) result }
        ensures same_run { self.new.track.run ≡ self.old.track.run }
        ensures counts { CountsWriteFaults W.faults packets.old.sink packets.new.sink result }
    {
        self.halted = Some(halted);
        self.stop = stop;
        self.say(stop.reply().as_slice(), packets)
    }

    // Keeps what a request asks for: a number of steps that stops the device too.
    fn keep_request(&mut self, request: Request)
        ensures keeps { (session : Session)
            → DebuggerStandsFor D.hash self.old session
            → DebuggerStandsFor D.hash self.new (after_request session request) }
        ensures same_run { self.new.track.run ≡ self.old.track.run }
    {
        if let Request::Until(number) = request {
            self.stops.set_until(until_of(number));
        }
    }

    fn monitor<W: Sink + Drop>(
        &mut self,
        request: Request,
        packets: &mut PacketWriter<W>,
    ) -> Result<Connection, AnswerFault>
        ensures gives { Gives D.hash W.Sink packets.old packets.new self.old self.new
            (λ session. answer_to_request (view_in D.hash self.old) session request) result }
        ensures counts { CountsWriteFaults W.faults packets.old.sink packets.new.sink result }
    {
        self.keep_request(request);
        tell(&self.track, self.current_walk()?, request, packets)?;
        self.say(b"OK", packets)
    }

    /// Answers a command; an interrupt that has come ends only the way of a device that goes.
    pub fn answer<I: Interrupts, W: Sink + Drop>(
        &mut self,
        command: Command,
        interrupts: &mut I,
        packets: &mut PacketWriter<W>,
    ) -> Result<Connection, AnswerFault>
        ensures gives { MayGive D.hash W.Sink (I.left interrupts.old) (I.left interrupts.new)
            packets.old packets.new self.old self.new
            (λ interrupt session. answer_of (view_in D.hash self.old) interrupt session command)
            result }
        ensures counts { CountsWriteFaults W.faults packets.old.sink packets.new.sink result }
    {
        match command {
            Command::Supported => {
                self.say(b"PacketSize=1000;ReverseStep+;ReverseContinue+", packets)
            }
            Command::LastStop => self.say(self.stop.reply().as_slice(), packets),
            Command::Attached => self.say(b"1", packets),
            Command::Registers => self.show_registers(packets),
            Command::Memory(first, size) => self.show_memory(first, size, packets),
            Command::Change(change) => self.change(change, packets),
            Command::Actions => self.say(b"vCont;c;C;s;S;r", packets),
            Command::Go(way, going) => self.resume(way, going, interrupts, packets),
            Command::Monitor(request) => self.monitor(request, packets),
            Command::Detach => {
                packets.put(b"OK")?;
                Ok(Connection::Closed)
            }
            Command::Kill => Ok(Connection::Closed),
            Command::Refused => self.say(b"E01", packets),
            Command::Unknown => self.say(b"", packets),
        }
    }
}

// A number of steps that is asked for; 0 takes it back.
fn until_of(number: u64) -> Option<u64>
    ensures { result ≡ until_of number }
{
    if number == 0 { None } else { Some(number) }
}
