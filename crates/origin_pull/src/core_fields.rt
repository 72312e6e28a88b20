use crate::Due;
use past::{Flow, Pair};
use stream_model::{Entry, Reply};

/// The state that an edge keeps of its place. `live` says whether its calls, with those that wait and are
/// due, leave a broadcast begun. `kept` is a call that found the port busy. `calls`, its own calls with their
/// replies, takes no bytes. An entry's `at` is 0: an edge counts no input.
#[derive(Drop)]
pub struct Core {
    pub who: u64,
    pub place: u32,
    pub live: bool,
    pub kept: Option<Entry>,
    pub due: Due,
    pub calls: Flow<Pair<Entry, Reply>>,
}
