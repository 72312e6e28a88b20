// The facts that a ring keeps about the end of its items.
ghost use Rattle.std.specs.Prelude.{◌≡◌, ◌<◌, ◌+◌, ◌^◌, false, None};
ghost use Rattle.unit_ring.specs.Marks.{no_marks, newest_after};

use crate::marks::Marks;
use av_unit::{Item, Kind};

/// The facts at the end of the items.
#[derive(Clone, Copy)]
pub struct Newest {
    /// The number of items.
    pub end: u64,
    /// The configurations in effect.
    pub marks: Marks,
    /// Whether a broadcast has begun and hasn't ended.
    pub live: bool,
    /// The last keyframe since the last Begin.
    pub key: Option<u64>,
    /// The last frame or Begin.
    pub video: Option<u64>,
}

impl Newest {
    pub fn none() -> Newest
        ensures { result ≡ record { end = 0; marks = no_marks; live = false; key = None; video = None } }
    {
        Newest {
            end: 0,
            marks: Marks::none(),
            live: false,
            key: None,
            video: None,
        }
    }

    /// Updates them after one more item.
    pub fn add(&mut self, item: &Item)
        requires { self.old.end + 1 < 2 ^ 64 }
        ensures { self.new ≡ newest_after item.now self.old }
    {
        let n = self.end;
        match item {
            Item::Begin => {
                self.live = true;
                self.key = None;
                self.video = Some(n);
            }
            Item::Unit(shared) => match shared.unit().kind {
                Kind::Key => {
                    self.key = Some(n);
                    self.video = Some(n);
                }
                Kind::Inter => self.video = Some(n),
                Kind::Meta | Kind::VConfig | Kind::AConfig => {}
                Kind::Spare | Kind::Audio | Kind::Data => {}
            },
            Item::End => self.live = false,
        }
        self.marks = self.marks.after(n, item);
        self.end = n + 1;
    }
}
