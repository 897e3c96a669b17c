// Leaves that every pass over bytes and numbers shares: reading past the end gives 0, copying stops at the shorter end.
#![tactic(auto)]

ghost use Rattle.std.specs.Prelude.{◌≡◌, min, ◌+◌, ◌-◌, ◌<◌, get_or};
ghost use Rattle.base_bytes.specs.Lists.{same, pasted, piece};
ghost use Rattle.base_bytes.specs.Choice as choice;

pub fn both(a: bool, b: bool) -> bool
    ensures { result ≡ choice.both a b }
{
    if a { b } else { false }
}

pub fn either(a: bool, b: bool) -> bool
    ensures { result ≡ choice.either a b }
{
    if a { true } else { b }
}

// The byte at a place, 0 where there is none.
pub fn byte_at(s: &[u8], i: usize) -> u8
    ensures { result ≡ get_or s.now i 0 }
{
    if i < s.len() { s[i] } else { 0 }
}

// The number at a place, 0 where there is none.
pub fn word_at(s: &[u32], i: usize) -> usize
    ensures value { result ≡ get_or s.now i 0 }
    ensures upper_bound { result < 4294967296 }
{
    if i < s.len() { s[i] as usize } else { 0 }
}

// The number k places on.
pub fn word_on(s: &[u32], i: usize, k: usize) -> usize
    ensures value { result ≡ get_or s.now (i + k) 0 }
    ensures upper_bound { result < 4294967296 }
{
    if s.len() <= i {
        return 0;
    }
    if s.len() - i <= k {
        return 0;
    }
    word_at(s, i + k)
}

// The smaller of two.
pub fn least(a: usize, b: usize) -> usize
    ensures { result ≡ min a b }
{
    a.min(b)
}

// a - b, or 0 where b is more.
pub fn minus(a: usize, b: usize) -> usize
    ensures { result ≡ a - b }
{
    a.saturating_sub(b)
}

// The part of a text from a place to a place, as far as there is one.
pub fn part(text: &[u8], from: usize, to: usize) -> &[u8]
    ensures { result.now ≡ piece text.now from to }
{
    let e = least(to, text.len());
    let s = least(from, e);
    &text[s..e]
}

// Are these the same bytes?
pub fn same(x: &[u8], y: &[u8]) -> bool
    ensures { result ≡ same x.now y.now }
{
    // As a loop, and not as `x == y`: of words of a few bytes thousands are compared, and the library's comparison costs more there than the words do.
    if x.len() != y.len() {
        return false;
    }
    for k in 0..x.len() {
        if x[k] != y[k] {
            return false;
        }
    }
    true
}

// The first n of src over the first n of dst, as far as both reach; the rest of dst stays.
pub fn copy<T: Copy>(dst: &mut [T], src: &[T], n: usize)
    ensures { dst.new ≡ pasted n src.now dst.old }
{
    let most = least(n, least(src.len(), dst.len()));
    dst[..most].copy_from_slice(&src[..most]);
}
