pub mod judgement;
pub mod judging;
pub mod tally;
pub mod unanswered;
pub mod verdict_text;
