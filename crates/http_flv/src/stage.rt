use http_request::Refusal;

/// The stage of a player.
#[derive(Clone, Copy, PartialEq, Eq)]
pub enum Stage {
    /// Its request's head isn't whole.
    Reading,
    /// It asks to join the stream at this place.
    Joining { place: u32 },
    /// It is refused.
    Telling { refusal: Refusal },
    /// It plays the stream at this place, as this player.
    Playing { place: u32, player: u32 },
}
