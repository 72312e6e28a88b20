//! Reports the changes of a stream to the sink of its recording.

use av_unit::Item;
use relay_outside::{Sink, SinkNews};
use stream_core::Reply;
use stream_registry::PortFail;

// Reports the answer of its recorder's Take to a sink: that a broadcast begins or has ended, or the number of
// items skipped.
pub(crate) fn tell<K: Sink>(sink: &K, answer: &Result<Reply, PortFail>) {
    match answer {
        Ok(
            Reply::Sent {
                from: _,
                n: _,
                item,
            },
        ) => tell_item(sink, item),
        Ok(Reply::Skip { from, to }) => sink.tell(SinkNews::Skipped(to.saturating_sub(*from))),
        Ok(_) => {}
        Err(_) => {}
    }
}

fn tell_item<K: Sink>(sink: &K, item: &Item) {
    match item {
        Item::Begin => sink.tell(SinkNews::Begins),
        Item::End => sink.tell(SinkNews::Ends),
        Item::Unit(_) => {}
    }
}
