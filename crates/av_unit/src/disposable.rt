// Frames that no other frame needs. Sections are those of H.264 (ISO/IEC 14496-10), those with 15 before them
// of ISO/IEC 14496-15.
ghost use Rattle.std.specs.Prelude.{◌≡◌, ◌⊎◌, ◌<◌, length, option_map, false, IfSome, [], ◌∷◌, ◌++◌};
ghost use Rattle.av_unit.specs.declared.unit.Kind.{Kind};
ghost use Rattle.av_unit.specs.Classes.{class_of};
ghost use Rattle.av_unit.specs.Examples.{unit_at, avc, other, slice, needed_slice};
ghost use Rattle.av_unit.specs.Disposable.{length_size, size_or_none, one_byte, two_bytes, four_bytes, length_at, unit_front, is_slice, is_needed, firsts_of, spares, is_end, is_disposable};

/// Reads an AVC sequence header's body: the size of the lengths before NAL units in the AVC bodies that it
/// sets up (15, 5.2.4.1, `lengthSizeMinusOne`). The size is 1, 2 or 4 bytes, or 0 if the body isn't one of
/// version 1 with such a length.
pub fn length_size(body: &[u8]) -> u8
    ensures value { result ≡ length_size body.now }
    ensures sizes { (result ≡ 0) ⊎ (result ≡ 1) ⊎ (result ≡ 2) ⊎ (result ≡ 4) }
{
    match body {
        [_, _, _, _, _, 1, _, _, _, flags, ..] => size_or_none(flags % 4 + 1),
        _ => 0,
    }
}

/// Worked examples of disposable frames, on the definitions themselves. The bodies are AVC: slices that other
/// frames refer to, slices that no frame refers to, and other units.
#[tactic(auto, unfolding(crate::specs::Classes::class_of, crate::specs::Classes::table_class, crate::specs::Disposable::is_disposable, crate::specs::Disposable::firsts_of, crate::specs::Disposable::firsts_in, crate::specs::Disposable::unit_front))]
pub fn disposable_examples()
    ensures spare { class_of 9 (avc 2 1 ++ slice) 4 ≡ unit_at Kind.Spare 0 }
    ensures with_others { class_of 9 (avc 2 1 ++ other ++ slice) 4 ≡ unit_at Kind.Spare 0 }
    ensures needed { class_of 9 (avc 2 1 ++ slice ++ needed_slice) 4 ≡ unit_at Kind.Inter 0 }
    ensures no_slice { class_of 9 (avc 2 1 ++ other) 4 ≡ unit_at Kind.Inter 0 }
    ensures empty_unit { class_of 9 (avc 2 1 ++ slice ++ 0 ∷ 0 ∷ 0 ∷ 0 ∷ []) 4 ≡ unit_at Kind.Inter 0 }
    ensures cut_off { class_of 9 (avc 2 1 ++ 0 ∷ 0 ∷ 0 ∷ 2 ∷ 1 ∷ []) 4 ≡ unit_at Kind.Inter 0 }
    ensures keyframe { class_of 9 (avc 1 1 ++ slice) 4 ≡ unit_at Kind.Key 0 }
    ensures short_lengths { class_of 9 (avc 2 1 ++ 1 ∷ 1 ∷ []) 1 ≡ unit_at Kind.Spare 0 }
    ensures two_byte_lengths { class_of 9 (avc 2 1 ++ 0 ∷ 1 ∷ 1 ∷ []) 2 ≡ unit_at Kind.Spare 0 }
    ensures no_such_lengths { class_of 9 (avc 2 1 ++ 0 ∷ 0 ∷ 1 ∷ 1 ∷ []) 3 ≡ unit_at Kind.Inter 0 }
    ensures unknown_lengths { class_of 9 (avc 2 1 ++ slice) 0 ≡ unit_at Kind.Inter 0 }
{}

// Tells whether no other frame needs that of an AVC body. Its units begin at byte 5 and have lengths of
// `size` bytes.
#[tactic(auto, using(crate::proofs::Spared::no_size), unfolding(crate::specs::Disposable::is_disposable))]
pub(crate) fn is_disposable(body: &[u8], size: u8) -> bool
    ensures value { result ≡ is_disposable size body.now }
    ensures no_size { size ≡ 0 → result ≡ false }
{
    match body {
        [_, _, _, _, _, units @ ..] => are_spared(units, size),
        _ => false,
    }
}

// Tells whether there is a slice, no slice is needed, and the bytes are units up to the end.
fn are_spared(units: &[u8], size: u8) -> bool
    ensures { result ≡ spares (firsts_of size units.now) }
{
    let mut slices = false;
    let mut left = units;
    while let Some((first, rest)) = unit_front(left, size) {
        if is_needed(first) {
            return false;
        }
        slices |= is_slice(first);
        left = rest;
    }
    slices && is_end(left)
}

fn is_end(bytes: &[u8]) -> bool
    ensures { result ≡ is_end bytes.now }
{
    match bytes {
        [] => true,
        _ => false,
    }
}

fn size_or_none(size: u8) -> u8
    requires { (size ≡ 1) ⊎ (size ≡ 2) ⊎ (size ≡ 3) ⊎ (size ≡ 4) }
    ensures value { result ≡ size_or_none size }
    ensures sizes { (result ≡ 0) ⊎ (result ≡ 1) ⊎ (result ≡ 2) ⊎ (result ≡ 4) }
{
    if size == 3 { 0 } else { size }
}

// Splits off the unit at the front: its first byte, and the bytes behind it.
#[tactic(auto, using(std::proofs::lemmas::Bool::Decides::nat_tests), unfolding(crate::specs::Disposable::unit_front))]
fn unit_front(bytes: &[u8], size: u8) -> Option<(u8, &[u8])>
    ensures value { option_map (λ p. (p.0, p.1.now)) result ≡ unit_front size bytes.now }
    ensures shorter { IfSome result (λ p. length p.1.now < length bytes.now) }
{
    let (len, rest) = length_in(bytes, size)?;
    match rest {
        [first, ..] if 1 <= len && len <= rest.len() => Some((*first, &rest[len..])),
        _ => None,
    }
}

// Reads the length at the front, and returns the bytes behind it too (15, 5.3.4.2).
#[tactic(auto, using(std::proofs::lemmas::Bool::Decides::nat_tests))]
fn length_in(bytes: &[u8], size: u8) -> Option<(usize, &[u8])>
    ensures value { option_map (λ p. (p.0, p.1.now)) result ≡ length_at size bytes.now }
    ensures shorter { IfSome result (λ p. length p.1.now < length bytes.now) }
{
    match size {
        1 => one_byte(bytes),
        2 => two_bytes(bytes),
        4 => four_bytes(bytes),
        _ => None,
    }
}

fn one_byte(bytes: &[u8]) -> Option<(usize, &[u8])>
    ensures value { option_map (λ p. (p.0, p.1.now)) result ≡ one_byte bytes.now }
    ensures shorter { IfSome result (λ p. length p.1.now < length bytes.now) }
{
    match bytes {
        [a, rest @ ..] => Some((*a as usize, rest)),
        _ => None,
    }
}

fn two_bytes(bytes: &[u8]) -> Option<(usize, &[u8])>
    ensures value { option_map (λ p. (p.0, p.1.now)) result ≡ two_bytes bytes.now }
    ensures shorter { IfSome result (λ p. length p.1.now < length bytes.now) }
{
    match bytes {
        [a, b, rest @ ..] => Some((*a as usize * 256 + *b as usize, rest)),
        _ => None,
    }
}

fn four_bytes(bytes: &[u8]) -> Option<(usize, &[u8])>
    ensures value { option_map (λ p. (p.0, p.1.now)) result ≡ four_bytes bytes.now }
    ensures shorter { IfSome result (λ p. length p.1.now < length bytes.now) }
{
    match bytes {
        [a, b, c, d, rest @ ..] => {
            let low = *b as usize * 65_536 + (*c as usize * 256 + *d as usize);
            Some((*a as usize * 16_777_216 + low, rest))
        }
        _ => None,
    }
}

// Tells whether a unit with that first byte is a slice of a picture.
#[tactic(auto, using(std::proofs::lemmas::Bool::Decides::nat_tests))]
fn is_slice(first: u8) -> bool
    ensures { result ≡ is_slice first }
{
    let kind = first % 32;
    1 <= kind && kind <= 5
}

// Tells whether it is a slice to which other pictures may refer (`nal_ref_idc`).
#[tactic(auto, using(std::proofs::lemmas::Bool::Decides::nat_tests))]
fn is_needed(first: u8) -> bool
    ensures { result ≡ is_needed first }
{
    is_slice(first) && first / 32 % 4 != 0
}
