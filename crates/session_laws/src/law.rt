ghost use Rattle.std.specs.Prelude.{◌≤◌, ◌-◌, ℕ, List, Option};
ghost use Rattle.device_trace.specs.Trace.{play_of};
ghost use Rattle.debug_session.specs.{Request.most_steps, declared.command.{Going.{Going, TheVariants.Step}, Way.TheVariants.{Ahead, Back}}, Cause.cause, Going.{seek_of, where_to}, Place.{Run, view_of}, Session.{Session, told_lines}, Sight.View, Stops.Stops};
ghost use Rattle.debug_link.specs.Conversation.{Input};
ghost use Rattle.session_laws.specs.{EarlyEnd.{MayEndEarly, TellsBetween}, FirstStop.{IsFirstStop, IsLastStop}, ShownPlay.ShowsPlay, StepBack.{HasStepped, IsTakenBack, MayStandAt, session_after}};

/// Going forwards from a place, by whatever command, leads to the first place behind it where there
/// is a cause to stop, and tells this cause; where there is none it leads to the last place of all.
pub fn first_stop_is_first()
    ensures { (view : View) (stops : Stops) (going : Going) (place : ℕ)
        → place ≤ most_steps
        → IsFirstStop (cause view stops (seek_of view Ahead going place)) place most_steps
        (where_to view stops Ahead going place) }
{}

/// Going back from a place leads to the last place before it where there is a cause to stop, and
/// tells this cause; where there is none it leads to place 1.
pub fn last_stop_is_last()
    ensures { (view : View) (stops : Stops) (going : Going) (place : ℕ)
        → IsLastStop (cause view stops (seek_of view Back going place)) place
        (where_to view stops Back going place) }
{}

/// A step back takes back a step. Where a step came to the end of an instruction, for no other
/// cause, going back by a step leads to where this instruction began, and a step leads from there
/// to the same place again. It is not so of the RETI of a handler in which the step was made.
pub fn step_is_taken_back()
    ensures { (view : View) (stops : Stops) (place : ℕ)
        → MayStandAt view place
        → HasStepped view place (where_to view stops Ahead Step place)
        → IsTakenBack view stops place (where_to view stops Ahead Step place)
        (where_to view stops Back Step (where_to view stops Ahead Step place).place) }
{}

/// An interrupt ends a way at a boundary, or where it began, between there and where it would have
/// stopped, and what is told is the lines of the steps made; or it changes nothing of the answer.
pub fn interrupt_ends_a_way()
    ensures { (run : Run) (session : Session) (body : List ℕ) (interrupt : Option ℕ)
        → MayStandAt (view_of run) session.place
        → MayEndEarly run session body interrupt }
{}

/// Whatever comes, a session stands where a step can be taken back: at place 1, at a boundary
/// or at the last place.
pub fn each_session_may_stand()
    ensures { (view : View) (inputs : List (Input ℕ))
        → MayStandAt view (session_after view inputs).place }
{}

/// The registers, bytes and flags that are shown at a place are the device's behind the play of so
/// many steps, and what `monitor` prints of the steps so far is what `play` and `trace` print of
/// this play; and none of it changes the session.
pub fn shown_is_of_the_play()
    ensures { (run : Run) (session : Session)
        → session.place ≤ most_steps
        → ShowsPlay run session (play_of run.events_at session.place) }
{}

/// The packets that are told on the way from one place to another hold the lines that `play` prints
/// of the steps between, no more and no less.
pub fn told_are_the_lines_between()
    ensures { (run : Run) (from to : ℕ)
        → from ≤ to → to ≤ most_steps
        → TellsBetween run from to (told_lines (view_of run) from (to - from)) }
{}
