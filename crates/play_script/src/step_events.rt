ghost use Rattle.std.specs.Prelude.{◌≤◌};

/// How many events of a script come in a step, at least one.
#[derive(Clone, Copy, Debug)]
pub struct StepEvents {
    pub step: u64,
    pub count: usize,
    pub ghost some: { 1 ≤ count },
}
