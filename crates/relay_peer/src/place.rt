//! The place in a film of FLV: the boundaries of its tags, and their times.

/// The size in bytes of the first part of the header of FLV.
const HEADER: usize = 9;

/// The most bytes in the body of a tag that is sent.
const MOST_BODY: u32 = 4_194_304;

/// The size in bytes of the head of a tag.
const HEAD: usize = 11;

/// The size in bytes of the number behind the header, and behind each tag.
const BACK: u64 = 4;

// The part of a film in which a place is.
#[derive(Clone, Copy)]
enum Part {
    Header,
    Head,
    /// Bytes that are left before the next head: of the header, or of a tag.
    Rest(u64),
    /// What came is no FLV.
    Lost,
}

/// The place in a film behind the bytes that have passed. Bytes that are no FLV have no tags.
#[derive(Clone, Copy)]
pub struct Place {
    part: Part,
    head: [u8; 11],
    have: usize,
    bytes: u64,
    tags: u64,
    time: u32,
    // The body of the last tag is longer than one that is sent.
    too_long: bool,
}

impl Place {
    /// The start of a film.
    pub fn new() -> Place {
        Place {
            part: Part::Header,
            head: [0; 11],
            have: 0,
            bytes: 0,
            tags: 0,
            time: 0,
            too_long: false,
        }
    }

    /// Returns the number of bytes that have passed.
    pub fn bytes(&self) -> u64 {
        self.bytes
    }

    /// Returns the number of tags whose head has passed.
    pub fn tags(&self) -> u64 {
        self.tags
    }

    /// Returns the time of the last of them, in milliseconds.
    pub fn time(&self) -> u32 {
        self.time
    }

    /// Returns whether the last tag has a longer body than one that is sent.
    pub(crate) fn is_too_long(&self) -> bool {
        self.too_long
    }

    /// Returns whether a film that ends here breaks off: inside its header or a tag.
    pub(crate) fn is_inside(&self) -> bool {
        match self.part {
            Part::Header => self.have > 0,
            Part::Head => self.have > 0,
            Part::Rest(_) => true,
            Part::Lost => false,
        }
    }

    /// Returns whether the next byte is the first of a tag.
    pub(crate) fn is_before_tag(&self) -> bool {
        match self.part {
            Part::Head => self.have == 0,
            _ => false,
        }
    }

    /// Returns whether the next byte is one of a tag's head.
    pub(crate) fn is_in_head(&self) -> bool {
        match self.part {
            Part::Head => true,
            _ => false,
        }
    }

    /// Returns the number of bytes up to the next boundary: the end of the header, of a head or of a tag.
    pub(crate) fn left(&self) -> u64 {
        match self.part {
            Part::Header => HEADER.saturating_sub(self.have) as u64,
            Part::Head => HEAD.saturating_sub(self.have) as u64,
            Part::Rest(left) => left,
            Part::Lost => u64::MAX,
        }
    }

    // Enters the part behind a whole head.
    fn enter(&mut self) {
        let head = &self.head;
        let size = u32::from_be_bytes([0, head[1], head[2], head[3]]);
        let is_tag = head[0] == 8 || head[0] == 9 || head[0] == 18;
        self.too_long = is_tag && size > MOST_BODY;
        self.time = u32::from_be_bytes([head[7], head[4], head[5], head[6]]);
        self.tags = self.tags.saturating_add(1);
        self.part = Part::Rest(u64::from(size).saturating_add(BACK));
        self.have = 0;
    }

    // Enters the part behind the first nine bytes of the header.
    fn begin(&mut self) {
        let head = &self.head;
        let size = u32::from_be_bytes([head[5], head[6], head[7], head[8]]);
        let is_film = head[0] == b'F' && head[1] == b'L' && head[2] == b'V';
        self.have = 0;
        self.part = match u64::from(size).checked_sub(HEADER as u64) {
            Some(more) if is_film => Part::Rest(more.saturating_add(BACK)),
            _ => Part::Lost,
        };
    }

    // Takes a byte of a header or a head.
    fn take(&mut self, byte: u8) {
        if let Some(slot) = self.head.get_mut(self.have) {
            *slot = byte;
        }
        self.have = self.have.saturating_add(1);
        match self.part {
            Part::Header if self.have >= HEADER => self.begin(),
            Part::Head if self.have >= HEAD => self.enter(),
            _ => {}
        }
    }

    // Passes bytes that end at the next boundary or before.
    fn step(&mut self, bytes: &[u8]) {
        match self.part {
            Part::Rest(left) => {
                let left = left.saturating_sub(bytes.len() as u64);
                self.part = if left == 0 {
                    Part::Head
                } else {
                    Part::Rest(left)
                };
            }
            Part::Lost => {}
            _ => {
                for byte in bytes {
                    self.take(*byte);
                }
            }
        }
    }

    /// Passes the next bytes of the film.
    pub(crate) fn pass(&mut self, bytes: &[u8]) {
        self.bytes = self.bytes.saturating_add(bytes.len() as u64);
        let mut rest = bytes;
        for _ in 0..bytes.len() {
            let most = usize::try_from(self.left()).unwrap_or(usize::MAX);
            let Some((piece, more)) = rest.split_at_checked(most.min(rest.len())) else {
                return;
            };
            self.step(piece);
            rest = more;
            if rest.is_empty() {
                return;
            }
        }
    }
}
