//! Characters that show nothing, or change how others are shown.

/// The format characters of Unicode (Cf), and its separators of lines and paragraphs (Zl and Zp): the first and the
/// last of each range.
const HIDDEN: [(u32, u32); 21] = [
    (0x00ad, 0x00ad),
    (0x0600, 0x0605),
    (0x061c, 0x061c),
    (0x06dd, 0x06dd),
    (0x070f, 0x070f),
    (0x0890, 0x0891),
    (0x08e2, 0x08e2),
    (0x180e, 0x180e),
    (0x200b, 0x200f),
    (0x2028, 0x202e),
    (0x2060, 0x2064),
    (0x2066, 0x206f),
    (0xfeff, 0xfeff),
    (0xfff9, 0xfffb),
    (0x110bd, 0x110bd),
    (0x110cd, 0x110cd),
    (0x13430, 0x1343f),
    (0x1bca0, 0x1bca3),
    (0x1d173, 0x1d17a),
    (0xe0001, 0xe0001),
    (0xe0020, 0xe007f),
];

/// Returns whether it is a control character, a format character or a separator of lines, which could make
/// one line look like another or like two.
pub fn is_hidden(c: char) -> bool {
    let code = u32::from(c);
    c.is_control()
        || HIDDEN
            .iter()
            .any(|(first, last)| *first <= code && code <= *last)
}
