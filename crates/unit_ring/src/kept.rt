// The configurations in effect at the base of a ring, which have left its slots.
ghost use Rattle.std.specs.Prelude.{◌≡◌, ◌≤◌, option_map};
ghost use Rattle.unit_ring.specs.Kept.{none_kept, kept_of, kept_after, kept_body, kept_sum, AreSmall};

use av_unit::{Item, Kind, Slot, UnitArc};

/// A configuration with its number.
#[derive(Drop)]
pub struct NumberedConfig {
    pub number: u64,
    pub unit: UnitArc,
}

/// The configurations in effect at the base.
#[derive(Drop)]
pub struct KeptConfigs {
    pub meta: Option<NumberedConfig>,
    pub video: Option<NumberedConfig>,
    pub audio: Option<NumberedConfig>,
}

impl KeptConfigs {
    pub fn none() -> KeptConfigs
        ensures { result ≡ none_kept }
    {
        KeptConfigs {
            meta: None,
            video: None,
            audio: None,
        }
    }

    pub fn of(&self, slot: Slot) -> Option<&NumberedConfig>
        ensures { option_map (λ k. k.now) result ≡ kept_of slot self.now }
    {
        match slot {
            Slot::Meta => self.meta.as_ref(),
            Slot::Video => self.video.as_ref(),
            Slot::Audio => self.audio.as_ref(),
        }
    }

    /// Goes past item `n`, which is kept if it is a configuration and else dropped.
    pub fn pass(&mut self, n: u64, item: Item)
        ensures kept { self.new ≡ kept_after n item self.old }
        ensures small { AreSmall self.old → AreSmall self.new }
    {
        match item {
            Item::Begin => *self = KeptConfigs::none(),
            Item::Unit(unit) => self.pass_unit(n, unit),
            Item::End => {}
        }
    }

    fn pass_unit(&mut self, number: u64, unit: UnitArc)
        ensures kept { self.new ≡ kept_after number (Item.Unit unit) self.old }
        ensures small { AreSmall self.old → AreSmall self.new }
    {
        match unit.unit().kind {
            Kind::Meta => self.meta = Some(NumberedConfig { number, unit }),
            Kind::VConfig => self.video = Some(NumberedConfig { number, unit }),
            Kind::AConfig => self.audio = Some(NumberedConfig { number, unit }),
            Kind::Key | Kind::Inter | Kind::Spare | Kind::Audio | Kind::Data => {}
        }
    }

    /// Gives the sum of the lengths of their bodies.
    pub fn bytes(&self) -> u64
        ensures sum { result ≡ kept_sum self.now }
        ensures most { result ≤ 12582912 }
    {
        bytes_of(&self.meta) + bytes_of(&self.video) + bytes_of(&self.audio)
    }
}

fn bytes_of(kept: &Option<NumberedConfig>) -> u64
    ensures body { result ≡ kept_body kept.now }
    ensures most { result ≤ 4194304 }
{
    match kept {
        None => 0,
        Some(kept) => kept.unit.unit().body.len() as u64,
    }
}
