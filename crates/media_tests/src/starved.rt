//! A sink that runs out of memory.
use relay_outside::{Put, Sink, SinkNews};

/// Takes whole pieces, or one byte of each if it is slow, and has no memory after a given number of further
/// puts.
#[derive(Drop)]
pub struct Starved {
    pub list: Vec<u8>,
    pub puts: u64,
    pub slow: bool,
}

impl Sink for Starved {
    ghost use Rattle.std.specs.Prelude.{Some};
    ghost use Rattle.relay_outside.specs.Put.{PutStep};

    ghost holds = { λ s. Some s.list.items };

    ghost faults = { λ _. 0 };

    ghost takes = { λ s piece answer t. PutStep piece (Some s.list.items) (Some t.list.items) 0 0 answer };

    fn put(&mut self, piece: &[u8]) -> Put {
        if self.puts == 0 {
            return Put::OutOfMemory;
        }
        self.puts -= 1;
        let count = if self.slow { 1 } else { piece.len() };
        match self.list.extend_from_slice(&piece[..count]) {
            Ok(()) => Put::Took(count),
            Err(_) => Put::OutOfMemory,
        }
    }

    fn tell(&self, _news: SinkNews) {}

    ghost takes_mean = { λ s piece answer t some step. step };
}
