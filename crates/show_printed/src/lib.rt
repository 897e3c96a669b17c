// Bytes as they are shown: what a model prints, each line two blanks in; bytes of a text or a trail, those that cannot be shown by their numbers; and all that stands before an answer, guarded, so that no line of
// it begins like an answer or a heading.
#![tactic(auto)]

ghost use Rattle.std.specs.Prelude.{◌≡◌, Bool, true, [], ◌∷◌, ◌++◌, length};
ghost use Rattle.base_bytes.specs.Choice.{pick, both};
ghost use Rattle.base_pens.specs.Pen.{pen, puts};
ghost use Rattle.spec_account.specs.Bytes as shown;
ghost use Rattle.spec_account.specs.Quiet as quiet;

use text_pens::put;

fn is_plain(b: u8) -> bool
    ensures { result ≡ shown.is_plain b }
{
    match b {
        92 => false,
        32..=126 => true,
        _ => false,
    }
}

// A digit of a number to the base 16.
fn hex_digit(n: u8) -> u8
    ensures { result ≡ shown.hex_digit n }
{
    if n < 10 { 48 + n } else { 87 + n % 16 }
}

// Writes `\x` and the two digits of a byte.
fn put_coded(b: u8, out: &mut [u8], p: usize) -> usize
    ensures { pen out.new result ≡ puts (shown.coded b) (pen out.old p) }
{
    let q = put(out, p, 92);
    let r = put(out, q, 120);
    let s = put(out, r, hex_digit(b / 16));
    put(out, s, hex_digit(b % 16))
}

// Writes a byte as itself, or by its number; a backslash too.
fn put_escaped(b: u8, out: &mut [u8], p: usize) -> usize
    ensures { pen out.new result ≡ puts (shown.escaped b) (pen out.old p) }
{
    if is_plain(b) {
        return put(out, p, b);
    }
    put_coded(b, out, p)
}

fn is_visible(b: u8) -> bool
    ensures { result ≡ shown.is_visible b }
{
    match b {
        32..=126 => true,
        _ => false,
    }
}

// Writes a byte as itself, or by its number.
fn put_seen(b: u8, out: &mut [u8], p: usize) -> usize
    ensures { pen out.new result ≡ puts (shown.visible b) (pen out.old p) }
{
    if is_visible(b) {
        return put(out, p, b);
    }
    put_coded(b, out, p)
}

// How many bytes it takes when it is shown.
pub fn width(b: u8) -> usize
    ensures { result ≡ length (shown.visible b) }
{
    if is_visible(b) { 1 } else { 4 }
}

// Writes bytes of a text or a trail.
pub fn put_visible(text: &[u8], out: &mut [u8], p: usize) -> usize
    ensures { pen out.new result ≡ puts (shown.each_visible text.now) (pen out.old p) }
{
    let mut q = p;
    for b in text {
        q = put_seen(*b, out, q);
    }
    q
}

// Writes bytes of a name or a line; a backslash by its number too.
pub fn put_escapes(text: &[u8], out: &mut [u8], p: usize) -> usize
    ensures { pen out.new result ≡ puts (shown.each_escaped text.now) (pen out.old p) }
{
    let mut q = p;
    for b in text {
        q = put_escaped(*b, out, q);
    }
    q
}

// Writes the margin, if a line begins here.
fn put_margin(fresh: bool, out: &mut [u8], p: usize) -> usize
    ensures { pen out.new result ≡ puts (shown.margin fresh) (pen out.old p) }
{
    if fresh {
        let q = put(out, p, 32);
        return put(out, q, 32);
    }
    p
}

// Writes one byte of the text; `fresh` says that it begins a line.
fn put_byte(b: u8, fresh: bool, out: &mut [u8], p: usize) -> usize
    ensures { pen out.new result ≡ puts (shown.shown_byte fresh b) (pen out.old p) }
{
    let q = put_margin(fresh, out, p);
    if b == 10 {
        return put(out, q, 10);
    }
    put_escaped(b, out, q)
}

// Writes a text that a model prints; `fresh` says that it begins a line.
pub fn put_text(text: &[u8], fresh: bool, out: &mut [u8], p: usize) -> usize
    ensures { pen out.new result ≡ puts (shown.shown fresh text.now) (pen out.old p) }
{
    let mut q = p;
    let mut f = fresh;
    for b in text {
        q = put_byte(*b, f, out, q);
        f = *b == 10;
    }
    q
}

// Does an answer or a heading begin with this byte?
fn is_front(b: u8) -> bool
    ensures { result ≡ quiet.is_front b }
{
    match b {
        61 => true,
        97 => true,
        98 => true,
        101 => true,
        102 => true,
        111 => true,
        114 => true,
        _ => false,
    }
}

// Writes one byte of what stands before an answer; `fresh` says that it begins a line.
fn put_guard(b: u8, fresh: bool, out: &mut [u8], p: usize) -> usize
    ensures { pen out.new result ≡ puts (pick (both fresh (quiet.is_front b)) (32 ∷ 32 ∷ []) [] ++ b ∷ []) (pen out.old p) }
{
    let q = put_margin(base_bytes::both(fresh, is_front(b)), out, p);
    put(out, q, b)
}

// Writes what stands before an answer, from the start of a line on.
pub fn put_guarded(text: &[u8], out: &mut [u8], p: usize) -> usize
    ensures { pen out.new result ≡ puts (quiet.guarded true text.now) (pen out.old p) }
{
    let mut q = p;
    let mut f = true;
    for b in text {
        q = put_guard(*b, f, out, q);
        f = *b == 10;
    }
    q
}
