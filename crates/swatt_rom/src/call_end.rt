/// What a call leaves: PC and SP with which the processor goes on, and the decision.
#[derive(Clone, Copy, Debug)]
pub struct CallEnd {
    pub pc: u16,
    pub sp: u16,
    pub decision: u16,
}
