use thiserror::Error;

/// Why bytes are refused as a file. A place is the number of the file's bytes that stand before it.
#[derive(Clone, Copy, Debug, Drop, Error)]
pub enum FlvFail {
    /// The byte there isn't that of a header (E.2), or the file ends there within the header's first nine bytes.
    #[error("no FLV header at {at}")]
    BadHeader { at: u64 },
    /// A tag that begins there isn't of type 8, 9 or 18, has a body of more than 4,194,304 bytes, or isn't
    /// whole at the file's end. The place is 9 if the file ends within the four bytes after the header.
    #[error("no tag at {at}")]
    BadTag { at: u64 },
    /// The four bytes there, after a tag, don't have the number of its bytes (E.3).
    #[error("a tag of {real} bytes is counted back as {stored} at {at}")]
    BadBack { at: u64, stored: u32, real: u32 },
    /// Memory was refused.
    #[error("out of memory")]
    OutOfMemory,
}
