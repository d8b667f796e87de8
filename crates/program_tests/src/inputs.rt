use std::alloc::{AllocError, Global};

/// The arguments of a command line.
pub fn arguments(alloc: Global, texts: &[&str]) -> Result<Vec<String>, AllocError> {
    let mut arguments = Vec::new(alloc);
    for text in texts {
        arguments.push(String::from_str(alloc, text)?)?;
    }
    Ok(arguments)
}

/// A text of these parts.
pub fn text_of(alloc: Global, parts: &[&str]) -> Result<Vec<u8>, AllocError> {
    let mut text = Vec::new(alloc);
    for part in parts {
        text.extend_from_slice(part.as_bytes())?;
    }
    Ok(text)
}

/// Files by their names.
pub fn named_files(
    alloc: Global,
    files: &[(&str, &[u8])],
) -> Result<Vec<(String, Vec<u8>)>, AllocError> {
    let mut all = Vec::new(alloc);
    for (name, bytes) in files {
        all.push((String::from_str(alloc, name)?, bytes.to_vec(alloc)?))?;
    }
    Ok(all)
}
