use aac_adts::Asc;
use avc_annexb::Avcc;

/// The configurations in force.
#[derive(Drop)]
pub struct InForce {
    pub video: Option<Avcc>,
    pub audio: Option<Asc>,
}
