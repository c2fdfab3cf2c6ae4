//! Texts that are compared without the case of ASCII letters, eight bytes at once.
ghost use Rattle.std.specs.{Prelude.{◌≡◌, ◌+◌, ◌<◌, ◌≤◌, ◌&&◌, drop, length}, Str.str_eq_ignore_ascii_case};

// Returns `true` if two texts are equal, with `A` to `Z` read as `a` to `z`.
pub(crate) fn are_equal(a: &[u8], b: &[u8]) -> bool
    ensures { result ≡ str_eq_ignore_ascii_case a.now b.now }
{
    if a.len() != b.len() {
        return false;
    }
    let blocks = a.len() / 8;
    for block in 0..blocks {
        if !are_eight_equal(a, b, 8 * block) {
            return false;
        }
    }
    for at in 8 * blocks..a.len() {
        if !are_equal_at(a, b, at) {
            return false;
        }
    }
    true
}

// Compares the eight bytes from an index on. It branches after all of them, so that the compiler compares vectors.
#[inline(always)]
fn are_eight_equal(a: &[u8], b: &[u8], from: usize) -> bool
    requires a_within { from + 8 ≤ length a.now }
    requires b_within { from + 8 ≤ length b.now }
    ensures { str_eq_ignore_ascii_case (drop from a.now) (drop from b.now)
        ≡ (result && str_eq_ignore_ascii_case (drop (from + 8) a.now) (drop (from + 8) b.now)) }
{
    let mut same = true;
    for step in 0..8 {
        same = same & are_equal_at(a, b, from + step);
    }
    same
}

// Compares the two bytes at an index.
#[inline(always)]
fn are_equal_at(a: &[u8], b: &[u8], at: usize) -> bool
    requires a_within { at < length a.now }
    requires b_within { at < length b.now }
    ensures { str_eq_ignore_ascii_case (drop at a.now) (drop at b.now)
        ≡ (result && str_eq_ignore_ascii_case (drop (at + 1) a.now) (drop (at + 1) b.now)) }
{
    a[at].to_ascii_lowercase() == b[at].to_ascii_lowercase()
}
