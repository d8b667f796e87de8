//! A device that lives: it is told lines, and answers what is asked, for as long as lines come.
//!
//! A line says what comes from outside in a step, as a line of a script does, or has the device go
//! on to a step, or asks what stands in it. What was put of lines is their conversation
//! (`Conversation.antt`): of the steps it is what `play` prints of the same script.
#![tactic(auto)]

mod law;
mod line_fault;
mod line_responder;
mod live_line;
mod living;
mod playing;
mod serving;
mod state_lines;

pub use law::{run_is_cut_anywhere, tells_its_play};
pub use line_fault::LineFault;
pub use live_line::{LiveLine, read_live_line};
pub use living::Living;
pub use serving::serve_lines;
