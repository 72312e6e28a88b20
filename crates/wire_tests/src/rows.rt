/// Gives the first row of a text whose rows end with `|`, and the bytes after it.
pub fn first_row(text: &[u8]) -> Option<(&[u8], &[u8])> {
    let end = text.iter().position(|b| *b == b'|')?;
    Some((&text[..end], &text[end + 1..]))
}

/// Gives a number as a digit, if it is below 10.
pub fn digit(number: usize) -> u8 {
    b'0'.wrapping_add((number % 256) as u8)
}
