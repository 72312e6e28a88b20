//! The bytes that a link received and hasn't given yet.
ghost use Rattle.std.specs.Prelude.{◌≤◌, length};

use std::alloc::Global;

/// The most bytes that are received at once.
const AT_ONCE: usize = 65_536;

/// The number of reads in a row with no more bytes than were asked for, after which the memory is given back.
const FEW_TIMES: u32 = 64;

/// The bytes that a link received and hasn't given yet. It has memory only for a link that receives more than
/// is asked for.
#[derive(Drop)]
pub(crate) struct Inbox {
    alloc: Global,
    bytes: Vec<u8>,
    from: usize,
    until: usize,
    // The number of reads in a row that brought no more bytes than were asked for.
    few: u32,
}

impl Inbox {
    /// Creates an inbox without bytes.
    pub(crate) fn new(alloc: Global) -> Inbox {
        Inbox {
            alloc,
            bytes: Vec::new(alloc),
            from: 0,
            until: 0,
            few: 0,
        }
    }

    /// Returns whether it has memory.
    pub(crate) fn is_open(&self) -> bool {
        !self.bytes.is_empty()
    }

    /// Takes memory, if the system has some.
    pub(crate) fn open(&mut self) {
        let _ = self.bytes.resize(AT_ONCE, 0);
    }

    /// Returns the room for received bytes. It is used once no bytes are left.
    pub(crate) fn room(&mut self) -> &mut [u8] {
        self.bytes.as_mut_slice()
    }

    /// Records that `count` bytes came when `asked` were asked for. Returns whether there may be more.
    pub(crate) fn receive(&mut self, count: usize, asked: usize) -> bool {
        self.from = 0;
        self.until = count;
        self.few = if count > asked {
            0
        } else {
            self.few.saturating_add(1)
        };
        count >= self.bytes.len()
    }

    /// Returns whether bytes are left.
    pub(crate) fn has_more(&self) -> bool {
        self.from < self.until
    }

    /// Gives the first of the bytes that are left, as many as there is room for, and returns their number.
    pub(crate) fn give(&mut self, into: &mut [u8]) -> usize
        ensures count { result ≤ length into.new }
    {
        let count = match self.bytes.get(self.from..self.until) {
            Some(left) => copy(left, into),
            None => 0,
        };
        self.from = self.from.saturating_add(count);
        if self.from >= self.until && self.few >= FEW_TIMES {
            self.bytes = Vec::new(self.alloc);
            self.few = 0;
        }
        count
    }
}

// Copies as many bytes as there is room for, and returns their number.
fn copy(from: &[u8], into: &mut [u8]) -> usize
    ensures count { result ≤ length into.new }
{
    let count = from.len().min(into.len());
    into[..count].copy_from_slice(&from[..count]);
    count
}
