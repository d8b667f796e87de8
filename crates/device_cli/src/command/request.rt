use crate::command_end::CommandEnd;
use crate::ending::Ending;
use crate::power::Power;
use crate::task::Task;
use device_play::PutFault;
use input_files::{File, Inputs, Key, Refusal};
use outside_edge::{Shelf, Sink};
use report_text::print_request;
use report_verifier::token;
use std::alloc::{AllocError, Global};
use text_scan::{decimal, hex_bytes};

// The greatest counter of a request.
const MOST_COUNT: u64 = 4_294_967_295;

/// The command `request KEY CHAL COUNTER`: a request for an attestation.
#[derive(Clone, Copy, Debug)]
pub struct Request<'a> {
    pub key: File<'a, Key>,
    pub chal: [u8; 32],
    pub count: u32,
}

impl<'a> Task<'a> for Request<'a> {
    ghost use Rattle.device_cli.specs.{Request.{request_row, request_row_of, request_text}, Row.plain};

    type Values = [u8; 64];

    type Prepared = ();

    ghost row_of = { request_row_of };

    ghost command_row = { λ request. request_row request.key.name.now request.chal request.count };

    ghost outcome = { λ request key. plain (request_text request.chal request.count key) };

    ghost is_prepared = { λ task values prepared. Unit {0} };

    ghost once_put = { λ outcome. Unit {0} };

    /// CHAL has 64 hexadecimal digits, COUNTER is a decimal in 1..4,294,967,295.
    fn from_arguments(arguments: &'a [String]) -> Option<Request<'a>> {
        let [key, chal, count] = arguments else {
            return None;
        };
        let mut challenge = [0; 32];
        hex_bytes(chal.as_bytes(), &mut challenge).ok()?;
        let count = decimal(count.as_bytes(), 1, MOST_COUNT).ok()?;
        let key = File::new(key.as_str(), Key);
        Some(Request {
            key,
            chal: challenge,
            count: count as u32,
        })
    }

    fn read<S: Shelf>(&self, alloc: Global, shelf: &mut S) -> Result<[u8; 64], Refusal> {
        self.key.read::<CommandEnd, S>(alloc, shelf)
    }

    fn prepare<P: Power>(&self, _alloc: Global, _values: &[u8; 64]) -> Result<(), AllocError> {
        Ok(())
    }

    fn put<W: Sink>(
        &self,
        _alloc: Global,
        key: &[u8; 64],
        _prepared: (),
        sink: &mut W,
    ) -> Result<Ending, PutFault> {
        let token = token(key, &self.chal, self.count);
        print_request(&self.chal, self.count, &token, sink)?;
        Ok(Ending::Done)
    }
}
