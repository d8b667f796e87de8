ghost use Rattle.std.specs.Prelude.{All, List};
ghost use Rattle.device_types.specs.declared.event.Event.{Event};
ghost use Rattle.device_trace.specs.{Trace.{Play, trace}, Start.Start};
ghost use Rattle.trace_facts.specs.Naming.{NamesNeitherA1NorK3, RunsRomInCall};

/// No step of any play is refused for rule A1 or K3: the call of the ROM is an engine that is left
/// at its end alone, and writes nowhere but in the exclusive stack and the MAC.
pub fn a1_and_k3_never_hold()
    ensures { (start : Start) (play : Play)
        → All NamesNeitherA1NorK3 (trace start play) }
{}

/// A running processor never runs code of the ROM: each step of any play that is made at a `pc` in
/// it is one of a call.
pub fn rom_runs_in_calls_alone()
    ensures { (start : Start) (play : Play) → All RunsRomInCall (trace start play) }
{}
