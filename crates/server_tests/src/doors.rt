//! A door that keeps the news that its links were told.
ghost use Rattle.relay_outside.specs.MemDoors.{door_told};

use relay_outside::{Door, DoorLink, Knock, MemDoor};
use std::alloc::AllocError;

/// A door in memory that takes from each link that comes back the news that it was told.
#[derive(Drop)]
pub struct Listening {
    pub door: MemDoor,
    pub told: Vec<u8>,
}

impl Door for Listening {
    type Link = DoorLink;

    ghost told = { λ d. door_told d.door };

    fn next(&mut self) -> Knock<DoorLink> {
        self.door.next()
    }

    fn back(&mut self, link: DoorLink) -> Result<(), AllocError> {
        let told = link.take_told();
        self.door.back(link)?;
        let _ = self.told.extend_from_slice(&told);
        Ok(())
    }
}
