ghost use Rattle.std.specs.Prelude.{◌≡◌, IfOk, string_bytes};
ghost use Rattle.outside_edge.specs.File.{named_files};
ghost use Rattle.device_library.specs.Call.{files_named};

use std::alloc::{AllocError, Global};

fn file(alloc: Global, name: &str, bytes: &[u8]) -> Result<(String, Vec<u8>), AllocError>
    ensures name { IfOk result (λ file. string_bytes file.0 ≡ name.now) }
    ensures bytes { IfOk result (λ file. file.1.items ≡ bytes.now) }
{
    Ok((String::from_str(alloc, name)?, bytes.to_vec(alloc)?))
}

/// The files of a call, by their names.
pub fn given_files(
    alloc: Global,
    image: &[u8],
    script: &[u8],
    key: &[u8],
    other: &[u8],
) -> Result<Vec<(String, Vec<u8>)>, AllocError>
    ensures { IfOk result (λ files. named_files files.items
        ≡ files_named image.now script.now key.now other.now) }
{
    let image = file(alloc, "image", image)?;
    let script = file(alloc, "script", script)?;
    let key = file(alloc, "key", key)?;
    let other = file(alloc, "other", other)?;
    Ok(vec![in alloc; image, script, key, other]?)
}
