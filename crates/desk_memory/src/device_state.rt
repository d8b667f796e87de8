ghost use Rattle.std.specs.Prelude.{◌≡◌};
ghost use Rattle.desk_memory.specs.DeviceState.{new_device, earlier_answer, under_new_key, with_answer};

use crate::answer::Answer;
use report_verifier::Verdict;

/// What a desk knows of a device.
#[derive(Clone, Copy, Debug, PartialEq, Eq)]
pub struct DeviceState {
    /// How many requests were made; the counter of the last.
    pub count: u32,
    /// The counter of the request whose report was not accepted yet.
    pub outstanding: Option<u32>,
    /// The last number of a line, with its answer.
    pub last: Option<(u32, Answer)>,
}

impl DeviceState {
    pub fn new() -> DeviceState
        ensures { result ≡ new_device }
    {
        DeviceState {
            count: 0,
            outstanding: None,
            last: None,
        }
    }

    /// What was answered before to a line of this number, or of a greater one.
    pub fn earlier_answer(&self, number: u32) -> Option<Answer>
        ensures { result ≡ earlier_answer number self.now.last }
    {
        match self.last {
            Some((last, _)) if number < last => Some(Answer::Stale),
            Some((last, answer)) if number == last => Some(answer),
            _ => None,
        }
    }

    /// Keeps the answer to a new number.
    pub fn keep(&mut self, number: u32, answer: Answer)
        ensures { self.new ≡ with_answer self.old number answer }
    {
        match answer {
            Answer::Requested(next) => {
                self.count = next;
                self.outstanding = Some(next);
            }
            Answer::Judged(Verdict::Accept) => self.outstanding = None,
            _ => {}
        }
        self.last = Some((number, answer));
    }
    /// The state under another key.
    pub fn under_new_key(&self) -> DeviceState
        ensures { result ≡ under_new_key self.now }
    {
        DeviceState {
            count: self.count,
            outstanding: None,
            last: match self.last {
                Some((number, _)) => Some((number, Answer::Stale)),
                None => None,
            },
        }
    }
}
