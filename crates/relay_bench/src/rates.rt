/// Millions of bytes a second.
pub(crate) fn megabytes(bytes: u64, micros: u128) -> u128 {
    u128::from(bytes).checked_div(micros).unwrap_or(0)
}
