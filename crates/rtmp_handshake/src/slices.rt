//! Parts of a slice, at places that may lie past its end.
ghost use Rattle.std.specs.Prelude.{◌≡◌, ◌-◌, take, drop};

/// Gives the first `count` elements, or all.
pub(crate) fn first(bytes: &[u8], count: usize) -> &[u8]
    ensures { result.now ≡ take count bytes.now }
{
    &bytes[..count.min(bytes.len())]
}

/// Gives the elements after the first `count`, or none.
pub(crate) fn after(bytes: &[u8], count: usize) -> &[u8]
    ensures { result.now ≡ drop count bytes.now }
{
    &bytes[count.min(bytes.len())..]
}
