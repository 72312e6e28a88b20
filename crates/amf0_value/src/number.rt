ghost use Rattle.std.specs.Prelude.{◌≡◌, ◌<◌, ◌^◌, ℕ, MatchOption};
ghost use Rattle.amf0_value.specs.Pattern.{IsPattern, pattern};

/// Returns the 64 bits of the AMF0 number that is the whole number `n`: the pattern of IEEE 754's binary64.
#[tactic(auto, unfolding(crate::specs::Pattern::pattern))]
pub fn bits_of(n: u64) -> u64
    requires { n < 2 ^ 53 }
    ensures pattern { IsPattern n result }
    ensures value { result ≡ pattern n }
{
    if n == 0 {
        return 0;
    }
    let exponent = 63 - n.leading_zeros();
    let above = n - (1u64 << exponent);
    ((1023 + exponent as u64) << 52) + (above << (52 - exponent))
}

/// Returns the whole number below 2^53 whose 64 bits these are. `None` if there is none.
pub fn whole_of(bits: u64) -> Option<u64>
    ensures { MatchOption result ((n : ℕ) → n < 2 ^ 53 → IsPattern n bits → ⊥) (λ n. (n < 2 ^ 53) × IsPattern n bits) }
{
    if bits == 0 {
        return Some(0);
    }
    let exponent = bits >> 52;
    if exponent < 1023 {
        return None;
    }
    if exponent > 1075 {
        return None;
    }
    let whole = ((1u64 << 52) + bits % (1u64 << 52)) >> (1075 - exponent);
    if bits_of(whole) == bits {
        Some(whole)
    } else {
        None
    }
}
