//! The names of files that are kept aside.

use std::alloc::{AllocError, Global};

// Splits a path into the part before the ending of its file's name, and the ending with its dot. A name
// without a dot has no ending. Nor has a name whose only dot comes first or last.
fn parted(path: &str) -> (&str, &str) {
    let begin = match path.rfind('/') {
        Some(slash) => slash.saturating_add(1),
        None => 0,
    };
    let whole = (path, "");
    let Some(dot) = path.rfind('.') else {
        return whole;
    };
    if dot <= begin || dot.saturating_add(1) >= path.len() {
        return whole;
    }
    match path.split_at_checked(dot) {
        Some(parts) => parts,
        None => whole,
    }
}

/// Returns the name with that number for the file at the path, before its ending, so that media players still
/// know the file by it. It is `cam.1.flv` for `cam.flv`, `cam.1` for `cam`, and `.cam.1` for `.cam`.
pub fn numbered(alloc: Global, path: &str, number: u32) -> Result<String, AllocError> {
    let (stem, ending) = parted(path);
    format!(in alloc; "{stem}.{number}{ending}")
}
