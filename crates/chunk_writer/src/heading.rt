/// The content of a message's headers: its chunk stream, its type, its message stream id, its time in
/// milliseconds and the length of its body in bytes (5.3.1.2).
#[derive(Clone, Copy)]
pub struct Heading {
    pub id: u32,
    pub kind: u8,
    pub stream: u32,
    pub time: u32,
    pub length: u32,
}
