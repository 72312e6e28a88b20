use chunk_wire::ChunkStream;

// The fields of a reader. `max` is the longest message and `size` the chunk size; `slots` are the chunk
// streams. `head` has the bytes of the header in progress. `place` is the slot of the chunk whose payload is
// being read, `need` the bytes that it still needs, and `held` the bytes of all parts.
#[derive(Drop)]
pub struct Core {
    pub max: u32,
    pub size: u32,
    pub slots: Vec<ChunkStream>,
    pub head: Vec<u8>,
    pub place: usize,
    pub need: u32,
    pub held: u64,
}
