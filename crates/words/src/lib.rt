// What a word says in a field of 32 bits. For programs that store factors or hand them to others.
// Signed numbers as words, in two's complement, are core's `cast_signed` and `cast_unsigned`: specs/WordLaws has what ties them to `signed` and `unsigned`.

#![tactic(auto)]

ghost use Rattle.std.specs.Prelude.{◌≡◌};
ghost use Rattle.words.specs.Words.{low32, past_half};

// A word's low 32 bits.
pub fn low_half(v: u64) -> u32
    ensures { result ≡ low32 v }
{
    (v % (1 << 32)) as u32
}

// Whether a word's upper 32 bits are not all 0.
pub fn is_past_half(v: u64) -> bool
    ensures { result ≡ past_half v }
{
    v >= 1 << 32
}
