use crate::answer_fault::AnswerFault;
use crate::connection::Connection;
use crate::packet_writer::PacketWriter;
use outside_edge::Sink;

/// One who answers the packets of a debugger.
pub trait Answerer {
    ghost use Rattle.std.specs.Prelude.{◌≤◌, ℕ, List, Option, length};
    ghost use Rattle.debug_link.specs.{Conversation.{Answer, HaveCome, LONGEST_BODY, count_of}, Writing.{Answers, CountsWriteFaults}};

    /// Where a session may stand.
    ghost Session: { Type 0 };

    /// Where its session may stand now.
    ghost stands: { Self → Session → Type 0 };

    /// What may interrupt an answer.
    ghost Interrupt: { Type 0 };

    /// How many interrupts come yet, if that is told.
    ghost left: { Self → Option ℕ };

    /// What it answers to a body there, interrupted or not.
    ghost reply: { Option Interrupt → Session → List ℕ → Answer Session };

    /// Puts its packets, each as soon as it is known, the reply at last. What interrupts it is one
    /// of the interrupts that come.
    fn answer<W: Sink + Drop>(
        &mut self,
        body: &[u8],
        packets: &mut PacketWriter<W>,
    ) -> Result<Connection, AnswerFault>
        requires { length body.now ≤ LONGEST_BODY }
        ensures answers { (session : Session) → stands self.old session
            → (interrupt : Option Interrupt)
            × HaveCome (count_of interrupt) (left self.old) (left self.new)
            × Answers stands W.Sink packets.old packets.new
            self.new (reply interrupt session body.now) result }
        ensures counts { CountsWriteFaults W.faults packets.old.sink packets.new.sink result };
}
