// What a printf writes, into a lent slice as far as it reaches.
#![tactic(auto)]

ghost use Rattle.std.specs.Prelude.{◌≡◌, ◌+◌, ◌%◌, ◌<◌, ◌≤◌, [], ◌∷◌};
ghost use Rattle.spec_text.specs.Formats as formats;
ghost use Rattle.step_prints.specs.Printing as printing;
ghost use Rattle.step_prints.specs.Printing.{pen, puts};

// Writes a byte and steps on, unless out is full.
fn put(out: &mut [u8], w: usize, b: u8) -> usize
    ensures { pen out.new result ≡ puts (b ∷ []) (pen out.old w) }
{
    if w < out.len() {
        out[w] = b;
        w + 1
    } else {
        w
    }
}

// The last digit of n.
fn digit(n: u32) -> u8
    ensures { result ≡ 48 + n % 10 }
{
    (48 + n % 10) as u8
}

fn digits(n: u32, f: usize, out: &mut [u8], w: usize) -> usize
    ensures { pen out.new result ≡ puts (formats.digits_by f n) (pen out.old w) }
{
    if f == 0 {
        return w;
    }
    if n < 10 {
        put(out, w, digit(n))
    } else {
        let q = digits(n / 10, f - 1, out, w);
        put(out, q, digit(n))
    }
}

// How far a value is from 0.
pub fn size_of(v: i32) -> u32
    ensures { result ≡ printing.size_of v }
{
    if v < 0 {
        state_layout::natural(base_values::apply_unary(20, v)) + 1
    } else {
        state_layout::natural(v)
    }
}

fn put_number(out: &mut [u8], w: usize, v: i32) -> usize
    ensures { pen out.new result ≡ puts (formats.decimal_of v) (pen out.old w) }
{
    if v < 0 {
        let q = put(out, w, 45);
        digits(size_of(v), 10, out, q)
    } else {
        digits(size_of(v), 10, out, w)
    }
}

fn escape(b: u8) -> u8
    ensures { result ≡ formats.escaped b }
{
    match b {
        110 => 10,
        116 => 9,
        _ => b,
    }
}

fn open_behind(was: u8, b: u8) -> u8
    ensures { result ≡ formats.opened was b }
{
    if was == 92 {
        return 0;
    }
    if was == 37 {
        return 0;
    }
    if b == 92 {
        return 92;
    }
    if b == 37 { 37 } else { 0 }
}

fn count_behind(was: u8, b: u8, k: usize) -> usize
    requires { k < 4294967296 }
    ensures value { result ≡ formats.counted was b k }
    ensures upper_bound { result ≤ k + 1 }
{
    if was == 37 {
        if b == 100 {
            return k + 1;
        }
        return k;
    }
    k
}

fn put_one(values: &[i32], was: u8, b: u8, k: usize, out: &mut [u8], w: usize) -> usize
    ensures { pen out.new result ≡ puts (formats.formatted values.now was b k) (pen out.old w) }
{
    if was == 92 {
        return put(out, w, escape(b));
    }
    if was == 37 {
        if b == 100 {
            return put_number(out, w, state_layout::cell(values, k));
        }
        return put(out, w, b);
    }
    if b == 92 {
        return w;
    }
    if b == 37 { w } else { put(out, w, b) }
}

// The text of the format that is item j, with the values, from place w of out on; the place behind it.
pub fn print(t: &[u32], values: &[i32], j: usize, out: &mut [u8], w: usize) -> usize
    ensures { pen out.new result ≡ puts (printing.text_of t.now values.now j) (pen out.old w) }
{
    let n = table_layout::name_length(t, j);
    let mut q = w;
    let mut was: u8 = 0;
    let mut k: usize = 0;
    for i in 0..n {
        let b = table_layout::name_byte(t, j, i);
        q = put_one(values, was, b, k, out, q);
        k = count_behind(was, b, k);
        was = open_behind(was, b);
    }
    q
}

// What the step of the statement at place q prints, in the state before it, at the front of out; how many bytes.
pub fn print_at(t: &[u32], s: &[i32], p: u8, q: u32, out: &mut [u8]) -> usize
    ensures { pen out.new result ≡ puts (printing.printed_at t.now s.now p q) (pen out.old 0) }
{
    if table_layout::code(t, q as usize) != base_codes::TEXT {
        return 0;
    }
    let mut values = [0i32; base_ceilings::NUMBERS_MOST];
    let g = step_messages::gather(t, s, p, q as usize + 1, &mut values);
    match g {
        Ok(_) => print(t, &values, q as usize, out, 0),
        Err(_) => 0,
    }
}
