/// What `--version` prints. `tools/write-reference` writes it.
pub const VERSION: &str = "foldgneiss 0.2.0\n";
