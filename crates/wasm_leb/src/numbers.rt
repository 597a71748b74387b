ghost use Rattle.std.specs.Prelude.{◌≡◌, ◌+◌, ◌-◌, ◌≤◌, ◌<◌, ◌^◌, length, nat_lt, nat_le, option_map, IfSome, pos, ◌<ℤ◌, ◌≤ℤ◌, ◌+ℤ◌, ◌-ℤ◌, ◌*ℤ◌};
ghost use Rattle.wasm_leb.specs.Numbers.{signed_at, signed_byte, unsigned_at};
ghost use Rattle.wasm_leb.specs.Places.{place};

#[tactic(auto, using(crate::proofs::Powers::within_seven, crate::proofs::Powers::shifted_one))]
fn is_within(bits: u32, last: u8) -> bool
    requires { last < 128 }
    ensures { result ≡ nat_lt last (2 ^ bits) }
{
    bits >= 7 || u32::from(last) < 1u32 << bits
}

/// The number of so many bits at the front, how many bytes lie before what is left then, and these.
#[tactic(auto, using(crate::proofs::Powers::power_by_groups))]
pub(crate) fn unsigned_of(bits: u32, at: usize, left: &[u8]) -> Option<(u64, usize, &[u8])>
    requires width { bits ≤ 64 }
    requires room { at + length left.now < 2 ^ 64 }
    ensures read { option_map (λ r. (r.0, place r.1 r.2.now)) result ≡ unsigned_at bits at left.now }
    ensures bound { IfSome result (λ r. r.0 < 2 ^ bits) }
    ensures kept { IfSome result (λ r. r.1 + length r.2.now ≡ at + length left.now) }
{
    match left {
        [] => None,
        [b, rest @ ..] => {
            if *b < 128 {
                if is_within(bits, *b) {
                    return Some((u64::from(*b), at + 1, rest));
                }
                return None;
            }
            if bits <= 7 {
                return None;
            }
            match unsigned_of(bits - 7, at + 1, rest) {
                Some((high, at, rest)) => Some((u64::from(*b - 128) + 128 * high, at, rest)),
                None => None,
            }
        }
    }
}

#[tactic(auto, using(crate::proofs::Powers::sign_within_seven, crate::proofs::Powers::shifted_one))]
fn is_sign_within(bits: u32, last: u8) -> bool
    requires last { (64 ≤ last) × (last < 128) }
    requires bits { 0 < bits }
    ensures { result ≡ nat_le 128 (last + 2 ^ (bits - 1)) }
{
    bits >= 7 || 128 <= u32::from(last) + (1u32 << (bits - 1))
}

/// What a last byte stands for in a number of so many bits.
fn signed_byte_of(bits: u32, last: u8) -> Option<i64>
    requires last { last < 128 }
    requires bits { 0 < bits }
    ensures read { result ≡ signed_byte bits last }
    ensures below { IfSome result (λ z. z <ℤ pos (2 ^ (bits - 1))) }
    ensures above { IfSome result (λ z. pos 0 ≤ℤ (z +ℤ pos (2 ^ (bits - 1)))) }
{
    if last < 64 {
        if is_within(bits - 1, last) {
            return Some(i64::from(last));
        }
        return None;
    }
    if is_sign_within(bits, last) {
        return Some(i64::from(last) - 128);
    }
    None
}

/// The low seven bits in front of the rest of a number.
fn with_low(low: u8, high: i64) -> i64
    requires low { low < 128 }
    requires below { high <ℤ pos (2 ^ 56) }
    requires above { pos 0 ≤ℤ (high +ℤ pos (2 ^ 56)) }
    ensures { result ≡ pos low +ℤ pos 128 *ℤ high }
{
    i64::from(low) + 128 * high
}

/// The number with sign, of so many bits, at the front; how many bytes lie before what is left then, and these.
pub(crate) fn signed_of(bits: u32, at: usize, left: &[u8]) -> Option<(i64, usize, &[u8])>
    requires width { (0 < bits) × (bits ≤ 64) }
    requires room { at + length left.now < 2 ^ 64 }
    ensures read { option_map (λ r. (r.0, place r.1 r.2.now)) result ≡ signed_at bits at left.now }
    ensures below { IfSome result (λ r. r.0 <ℤ pos (2 ^ (bits - 1))) }
    ensures above { IfSome result (λ r. pos 0 ≤ℤ (r.0 +ℤ pos (2 ^ (bits - 1)))) }
    ensures kept { IfSome result (λ r. r.1 + length r.2.now ≡ at + length left.now) }
{
    match left {
        [] => None,
        [b, rest @ ..] => {
            if *b < 128 {
                return match signed_byte_of(bits, *b) {
                    Some(z) => Some((z, at + 1, rest)),
                    None => None,
                };
            }
            if bits <= 7 {
                return None;
            }
            match signed_of(bits - 7, at + 1, rest) {
                Some((high, at, rest)) => Some((with_low(*b - 128, high), at, rest)),
                None => None,
            }
        }
    }
}
