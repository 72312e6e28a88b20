use stream_model::Call;

/// The calls that are due, the first of which is made first.
#[derive(Drop)]
pub enum Due {
    /// None.
    Nothing,
    /// One.
    One(Call),
    /// Two.
    Two(Call, Call),
}
