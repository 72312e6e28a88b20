//! Where a live stream is cut.
ghost use Rattle.std.specs.Prelude.{◌≡◌, true, None, is_some, option_map};
ghost use Rattle.hls_segments.specs.Cuts.{is_long, last_span, since};
ghost use Rattle.hls_segments.specs.Playlist.{rounded};
ghost use Rattle.live_segments.specs.Ways.{goes_back, is_back, is_due, long_by, seconds_of, way_of};
ghost use Rattle.live_segments.specs.Live.{cut_by, picture_by, sound_by, track_time};
ghost use Rattle.live_segments.specs.Steps.{broke, ends_at, joined_at, moved, row_by, row_own, row_to, turns_of, way_at};

use crate::Cut;

/// The effect of a unit that is written on the segments.
#[derive(Clone, Copy, Debug, Drop, PartialEq, Eq)]
pub(crate) enum Way {
    /// It begins a segment after a break.
    Break,
    /// It isn't kept.
    Hold,
    /// It begins the next segment.
    Split,
    /// It goes into the open segment.
    Join,
}

/// A segment that has ended: its span in milliseconds, and whether it is marked.
#[derive(Clone, Copy, Debug, Drop, PartialEq, Eq)]
pub(crate) struct Row {
    pub(crate) span: u32,
    pub(crate) marked: bool,
}

/// The times of the first unit of the open segment, of the last one at which a segment may begin, and of the last one, and whether
/// the segment is marked.
#[derive(Clone, Copy, Debug, Drop, PartialEq, Eq)]
pub(crate) struct Ends {
    first: u32,
    turn: u32,
    last: u32,
    marked: bool,
}

/// The open segment, whether a break is owed, and the last times of both tracks.
#[derive(Clone, Copy, Debug, Drop, PartialEq, Eq)]
pub(crate) struct Cutter {
    at: Option<Ends>,
    owed: bool,
    picture: Option<u32>,
    sound: Option<u32>,
}

// How much later a time is, modulo 2^32.
fn since(earlier: u32, later: u32) -> u32
    ensures { result ≡ since earlier later }
{
    later.wrapping_sub(earlier)
}

/// Rounds a span to whole seconds.
pub(crate) fn rounded(span: u32) -> u64
    ensures { result ≡ rounded span }
{
    (span as u64 + 500) / 1_000
}

/// Returns the target in whole seconds, rounded up and at least 1.
pub(crate) fn seconds_of(target: u32) -> u64
    ensures { result ≡ seconds_of target }
{
    ((target as u64 + 999) / 1_000).max(1)
}

// At least as long as the target, and no step back.
fn is_long(target: u32, long: u32) -> bool
    ensures { result ≡ is_long target long }
{
    target <= long && long < 1 << 31
}

// Whether a segment of that length is long enough, if the interval before its end has that length.
fn is_due(target: u32, long: u32, interval: u32) -> bool
    ensures { result ≡ is_due target long interval }
{
    is_long(target, long)
        || (long < 1 << 31 && interval < 1 << 31 && seconds_of(target) < rounded(long + interval))
}

fn is_back(earlier: u32, later: u32) -> bool
    ensures { result ≡ is_back earlier later }
{
    !(since(earlier, later) < 1 << 31)
}

fn goes_back(earlier: Option<u32>, time: u32) -> bool
    ensures { result ≡ goes_back earlier time }
{
    match earlier {
        Some(earlier) => is_back(earlier, time),
        None => false,
    }
}

fn long_by(target: u32, time: u32, at: Option<Ends>) -> bool
    ensures { result ≡ long_by target time (turns_of at) }
{
    match at {
        Some(ends) => is_due(target, since(ends.first, time), since(ends.turn, time)),
        None => false,
    }
}

fn way_of(broken: bool, may: bool, long: bool) -> Way
    ensures { result ≡ way_of broken may long }
{
    match (broken, may, long) {
        (true, true, _) => Way::Break,
        (true, false, _) => Way::Hold,
        (false, true, true) => Way::Split,
        (false, true, false) | (false, false, _) => Way::Join,
    }
}

fn track_time(sound: bool, picture: Option<u32>, heard: Option<u32>) -> Option<u32>
    ensures { result ≡ track_time sound picture heard }
{
    if sound { heard } else { picture }
}

fn picture_by(sound: bool, time: u32, before: Option<u32>) -> Option<u32>
    ensures { result ≡ picture_by sound time before }
{
    if sound { before } else { Some(time) }
}

fn sound_by(sound: bool, time: u32, before: Option<u32>) -> Option<u32>
    ensures { result ≡ sound_by sound time before }
{
    if sound { Some(time) } else { before }
}

impl Ends {
    // The times of a segment of one unit.
    fn at(marked: bool, time: u32) -> Ends
        ensures { result ≡ ends_at marked time }
    {
        Ends {
            first: time,
            turn: time,
            last: time,
            marked,
        }
    }

    // The row of a segment that ends at its own last unit.
    fn row_own(self) -> Row
        ensures { result ≡ row_own self }
    {
        let span = since(self.first, self.last);
        Row {
            span: if span < 1 << 31 { span } else { 0 },
            marked: self.marked,
        }
    }

    // The row of one that ends where the next begins.
    fn row_to(self, time: u32) -> Row
        ensures { result ≡ row_to time self }
    {
        Row {
            span: since(self.first, time),
            marked: self.marked,
        }
    }
}

fn joined_at(may: bool, time: u32, at: Option<Ends>) -> Option<Ends>
    ensures { result ≡ joined_at may time at }
{
    match at {
        Some(ends) => Some(Ends {
            first: ends.first,
            turn: if may { time } else { ends.turn },
            last: time,
            marked: ends.marked,
        }),
        None => Some(Ends::at(false, time)),
    }
}

impl Cutter {
    /// Creates the state before the first item: the first segment is owed.
    pub(crate) fn new() -> Cutter
        ensures { result ≡ record { at = None; owed = true; picture = None; sound = None } }
    {
        Cutter {
            at: None,
            owed: true,
            picture: None,
            sound: None,
        }
    }

    /// Returns the state after a broadcast has begun.
    pub(crate) fn broke(self) -> Cutter
        ensures { result ≡ broke self }
    {
        Cutter {
            at: self.at,
            owed: true,
            picture: self.picture,
            sound: self.sound,
        }
    }

    /// Returns the effect of a unit that is written. `may` says whether a segment may begin at it.
    pub(crate) fn way(self, target: u32, may: bool, sound: bool, time: u32) -> Way
        ensures { result ≡ way_at target may sound time self }
    {
        let back = goes_back(track_time(sound, self.picture, self.sound), time);
        way_of(self.owed || back, may, long_by(target, time, self.at))
    }

    /// Returns the state after that unit.
    pub(crate) fn moved(self, way: Way, may: bool, sound: bool, time: u32) -> Cutter
        ensures { result ≡ moved way may sound time self }
    {
        match way {
            Way::Break => Cutter {
                at: Some(Ends::at(self.at.is_some(), time)),
                owed: false,
                picture: picture_by(sound, time, None),
                sound: sound_by(sound, time, None),
            },
            Way::Hold => self.broke(),
            Way::Split => Cutter {
                at: Some(Ends::at(false, time)),
                owed: false,
                picture: picture_by(sound, time, self.picture),
                sound: sound_by(sound, time, self.sound),
            },
            Way::Join => Cutter {
                at: joined_at(may, time, self.at),
                owed: false,
                picture: picture_by(sound, time, self.picture),
                sound: sound_by(sound, time, self.sound),
            },
        }
    }

    /// Returns the row of the segment that ends with it, if one does.
    pub(crate) fn row(self, way: Way, time: u32) -> Option<Row>
        ensures { result ≡ row_by way time self.at }
    {
        match (way, self.at) {
            (Way::Break, Some(ends)) => Some(ends.row_own()),
            (Way::Split, Some(ends)) => Some(ends.row_to(time)),
            (Way::Break | Way::Split, None) | (Way::Hold | Way::Join, _) => None,
        }
    }

    /// Returns the answer for that unit.
    pub(crate) fn cut(self, way: Way) -> Cut
        ensures { result ≡ cut_by way (is_some self.at) }
    {
        match way {
            Way::Break => {
                if self.at.is_some() {
                    Cut::Marked
                } else {
                    Cut::First
                }
            }
            Way::Hold => Cut::Nothing,
            Way::Split => Cut::Next,
            Way::Join => {
                if self.at.is_some() {
                    Cut::Same
                } else {
                    Cut::First
                }
            }
        }
    }

    /// Returns the row of the open segment as it is if no unit follows.
    pub(crate) fn open(self) -> Option<Row>
        ensures { result ≡ option_map row_own self.at }
    {
        match self.at {
            Some(ends) => Some(ends.row_own()),
            None => None,
        }
    }
}
