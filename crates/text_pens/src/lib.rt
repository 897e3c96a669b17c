// Writing bytes one after the other to a lent slice that may end too soon: numbers in decimal, fixed spellings; and whether a byte would join what stands before it.
#![tactic(auto)]

ghost use Rattle.std.specs.Prelude.{◌≡◌, ◌+◌, ◌-◌, ◌%◌, ◌<◌, length, get_or, replicate};
ghost use Rattle.base_pens.specs.Pen.{pen, write, puts};
ghost use Rattle.spec_text.specs.Bytes.{is_word};
ghost use Rattle.spec_text.specs.Formats.{digits_by};
ghost use Rattle.text_pens.specs.Sheet.{sheet, sizes, spelled_by};
ghost use Rattle.text_pens.specs.After.{joins_by};

// The fixed spellings in the order of their kinds, eight bytes for each, and their lengths.
const SHEET: [u8; 552] = *b"\
||\x00\x00\x00\x00\x00\x00&&\x00\x00\x00\x00\x00\x00|\x00\x00\x00\x00\x00\x00\x00^\x00\x00\x00\x00\x00\x00\x00&\x00\x00\x00\x00\x00\x00\x00==\x00\x00\x00\x00\x00\x00\
!=\x00\x00\x00\x00\x00\x00<\x00\x00\x00\x00\x00\x00\x00<=\x00\x00\x00\x00\x00\x00>\x00\x00\x00\x00\x00\x00\x00>=\x00\x00\x00\x00\x00\x00<<\x00\x00\x00\x00\x00\x00\
>>\x00\x00\x00\x00\x00\x00+\x00\x00\x00\x00\x00\x00\x00-\x00\x00\x00\x00\x00\x00\x00*\x00\x00\x00\x00\x00\x00\x00/\x00\x00\x00\x00\x00\x00\x00%\x00\x00\x00\x00\x00\x00\x00\
!\x00\x00\x00\x00\x00\x00\x00~\x00\x00\x00\x00\x00\x00\x00(\x00\x00\x00\x00\x00\x00\x00)\x00\x00\x00\x00\x00\x00\x00[\x00\x00\x00\x00\x00\x00\x00]\x00\x00\x00\x00\x00\x00\x00\
{\x00\x00\x00\x00\x00\x00\x00}\x00\x00\x00\x00\x00\x00\x00,\x00\x00\x00\x00\x00\x00\x00;\x00\x00\x00\x00\x00\x00\x00:\x00\x00\x00\x00\x00\x00\x00::\x00\x00\x00\x00\x00\x00\
->\x00\x00\x00\x00\x00\x00=\x00\x00\x00\x00\x00\x00\x00++\x00\x00\x00\x00\x00\x00--\x00\x00\x00\x00\x00\x00?\x00\x00\x00\x00\x00\x00\x00!!\x00\x00\x00\x00\x00\x00\
??\x00\x00\x00\x00\x00\x00bit\x00\x00\x00\x00\x00bool\x00\x00\x00\x00byte\x00\x00\x00\x00mtype\x00\x00\x00pid\x00\x00\x00\x00\x00\
chan\x00\x00\x00\x00short\x00\x00\x00int\x00\x00\x00\x00\x00active\x00\x00assert\x00\x00break\x00\x00\x00\
do\x00\x00\x00\x00\x00\x00else\x00\x00\x00\x00eval\x00\x00\x00\x00false\x00\x00\x00fi\x00\x00\x00\x00\x00\x00goto\x00\x00\x00\x00\
if\x00\x00\x00\x00\x00\x00init\x00\x00\x00\x00len\x00\x00\x00\x00\x00od\x00\x00\x00\x00\x00\x00of\x00\x00\x00\x00\x00\x00printf\x00\x00\
proctyperun\x00\x00\x00\x00\x00skip\x00\x00\x00\x00timeout\x00true\x00\x00\x00\x00atomic\x00\x00\
d_step\x00\x00typedef\x00unless\x00\x00";

const SIZES: [u8; 69] = [
    2, 2, 1, 1, 1, 2, 2, 1, 2, 1, 2, 2, 2, 1, 1, 1, 1, 1, 1, 1, 1, 1, 1, 1, 1, 1, 1, 1, 1, 2, 2, 1,
    2, 2, 1, 2, 2, 3, 4, 4, 5, 3, 4, 5, 3, 6, 6, 5, 2, 4, 4, 5, 2, 4, 2, 4, 3, 2, 2, 6, 8, 3, 4, 7,
    4, 6, 6, 7, 6,
];

// Writes a byte; past the end nothing, and the pen stands one past the end.
pub fn put(out: &mut [u8], p: usize, v: u8) -> usize
    ensures { pen out.new result ≡ write v (pen out.old p) }
{
    if p < out.len() {
        out[p] = v;
        p + 1
    } else {
        out.len() + 1
    }
}

// Writes bytes, one after the other.
pub fn put_all(s: &[u8], out: &mut [u8], p: usize) -> usize
    ensures { pen out.new result ≡ puts s.now (pen out.old p) }
{
    let mut q = p;
    for b in s {
        q = put(out, q, *b);
    }
    q
}

// Writes a byte n times.
pub fn put_times(b: u8, n: usize, out: &mut [u8], p: usize) -> usize
    ensures { pen out.new result ≡ puts (replicate n b) (pen out.old p) }
{
    let mut q = p;
    for _ in 0..n {
        q = put(out, q, b);
    }
    q
}

fn last_digit(n: u32) -> u8
    ensures { result ≡ 48 + n % 10 }
{
    (48 + n % 10) as u8
}

// Writes a number in decimal, at most fuel digits.
pub fn put_digits(n: u32, fuel: usize, out: &mut [u8], p: usize) -> usize
    ensures { pen out.new result ≡ puts (digits_by fuel n) (pen out.old p) }
{
    if fuel == 0 {
        return p;
    }
    if n < 10 {
        put(out, p, last_digit(n))
    } else {
        let q = put_digits(n / 10, fuel - 1, out, p);
        put(out, q, last_digit(n))
    }
}

fn sheet_at(i: usize) -> u8
    ensures { result ≡ get_or sheet i 0 }
{
    if i < 552 { SHEET[i] } else { 0 }
}

fn size_at(i: usize) -> u8
    ensures { result ≡ get_or sizes i 0 }
{
    if i < 69 { SIZES[i] } else { 0 }
}

// Byte j of the spelling of kind k; 0 where it has none.
fn letter(k: u8, j: usize) -> u8
    ensures { result ≡ get_or (spelled_by k) j 0 }
{
    if j < 8 {
        sheet_at(8 * (k as usize).saturating_sub(1) + j)
    } else {
        0
    }
}

// How many bytes the spelling of kind k has.
fn size_of(k: u8) -> usize
    ensures { result ≡ length (spelled_by k) }
{
    size_at((k as usize).saturating_sub(1)) as usize
}

// Writes the spelling of kind k.
pub fn put_fixed(k: u8, out: &mut [u8], p: usize) -> usize
    ensures { pen out.new result ≡ puts (spelled_by k) (pen out.old p) }
{
    let n = size_of(k);
    let mut q = p;
    for j in 0..n {
        q = put(out, q, letter(k, j));
    }
    q
}

fn is_word(b: u8) -> bool
    ensures { result ≡ is_word b }
{
    text_pieces::is_digit(b) || text_pieces::is_letter(b)
}

// Would the byte c join a mark of kind k before it? Two bytes that are no mark together do not, but for a comment's opening.
fn mark_joins(k: u8, c: u8) -> bool
    requires { k < 38 }
    ensures { result ≡ joins_by k c }
{
    if letter(k, 1) != 0 {
        return false;
    }
    let a = letter(k, 0);
    if text_spellings::mark_of_two(a, c).is_some() {
        return true;
    }
    a == b'/' && c == b'*'
}

// Would the byte c join a token of kind k before it?
pub fn joins(k: u8, c: u8) -> bool
    ensures { result ≡ joins_by k c }
{
    if k < 38 {
        return mark_joins(k, c);
    }
    if k < 71 {
        return is_word(c);
    }
    k == 71 && text_pieces::is_digit(c)
}
