use device_debug::Interrupts;
use std::{env, fs};

/// The variable of the environment that names the file.
const NAME: &str = "FOLDGNEISS_INTERRUPTS";

/// A file that grows for each interrupt: GDB's own byte for one waits on standard input, behind
/// what is answered first.
#[derive(Drop)]
pub struct InterruptFile<'a> {
    rt: &'a HostRuntime,
    name: Option<String>,
    size: u64,
}

impl<'a> InterruptFile<'a> {
    /// The file that the environment names, as large as it is; none is as one that never grows.
    pub fn new(rt: &'a HostRuntime) -> InterruptFile<'a> {
        let name = env::var(rt, NAME).ok();
        let mut file = InterruptFile { rt, name, size: 0 };
        file.size = file.size_now();
        file
    }

    fn size_now(&self) -> u64 {
        let Some(name) = &self.name else {
            return 0;
        };
        fs::metadata(self.rt, name.as_str()).map_or(0, |metadata| metadata.len())
    }
}

impl Interrupts for InterruptFile<'_> {
    ghost use Rattle.std.specs.Prelude.{None};

    // Nothing is told of how often the file grows.
    ghost left = { λ _. None };

    fn have_come(&mut self) -> bool {
        let before = self.size;
        self.size = self.size_now();
        self.size > before
    }
}
