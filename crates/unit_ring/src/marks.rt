// The numbers of the configurations in effect at a place.
ghost use Rattle.std.specs.Prelude.{◌≡◌};
ghost use Rattle.unit_ring.specs.Marks.{no_marks, mark_of, marks_after};

use av_unit::{Item, Kind, Slot};

/// The numbers of the configurations in effect.
#[derive(Clone, Copy)]
pub struct Marks {
    pub meta: Option<u64>,
    pub video: Option<u64>,
    pub audio: Option<u64>,
}

impl Marks {
    pub fn none() -> Marks
        ensures { result ≡ no_marks }
    {
        Marks {
            meta: None,
            video: None,
            audio: None,
        }
    }

    pub fn of(self, slot: Slot) -> Option<u64>
        ensures { result ≡ mark_of slot self }
    {
        match slot {
            Slot::Meta => self.meta,
            Slot::Video => self.video,
            Slot::Audio => self.audio,
        }
    }

    /// Gives those in effect after item `n`.
    pub fn after(self, n: u64, item: &Item) -> Marks
        ensures { result ≡ marks_after n item.now self }
    {
        match item {
            Item::Begin => Marks::none(),
            Item::End => self,
            Item::Unit(shared) => match shared.unit().kind {
                Kind::Meta => Marks {
                    meta: Some(n),
                    ..self
                },
                Kind::VConfig => Marks {
                    video: Some(n),
                    ..self
                },
                Kind::AConfig => Marks {
                    audio: Some(n),
                    ..self
                },
                Kind::Key | Kind::Inter | Kind::Spare | Kind::Audio | Kind::Data => self,
            },
        }
    }
}
