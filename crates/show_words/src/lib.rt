// The words of which what is shown is made: numbers, names, messages, written one after the other to a lent slice that may end too soon.
#![tactic(auto)]

ghost use Rattle.std.specs.Prelude.{◌≡◌, ◌+◌, ◌%◌};
ghost use Rattle.base_pens.specs.Pen.{pen, puts};
ghost use Rattle.spec_text.specs.Formats.{digits_by, digits_of, decimal_of};
ghost use Rattle.spec_account.specs.States.{joined_text};
ghost use Rattle.write_letters.specs.Tokens.{spelled};
ghost use Rattle.show_words.specs.Words.{fields_in, title_in, message_in};

use text_pens::{put, put_all};

// Writes a value in signed decimal.
pub fn put_value(v: i32, out: &mut [u8], p: usize) -> usize
    ensures { pen out.new result ≡ puts (decimal_of v) (pen out.old p) }
{
    if v < 0 {
        let q = put(out, p, b'-');
        text_pens::put_digits(step_prints::size_of(v), 10, out, q)
    } else {
        text_pens::put_digits(step_prints::size_of(v), 10, out, p)
    }
}

fn last_digit(n: usize) -> u8
    ensures { result ≡ 48 + n % 10 }
{
    (48 + n % 10) as u8
}

// Writes a number in decimal, at most fuel digits.
fn put_digits(n: usize, fuel: usize, out: &mut [u8], p: usize) -> usize
    ensures { pen out.new result ≡ puts (digits_by fuel n) (pen out.old p) }
{
    if fuel == 0 {
        return p;
    }
    if n < 10 {
        put(out, p, last_digit(n))
    } else {
        let q = put_digits(n / 10, fuel - 1, out, p);
        put(out, q, last_digit(n))
    }
}

// Writes a count in decimal.
pub fn put_count(n: usize, out: &mut [u8], p: usize) -> usize
    ensures { pen out.new result ≡ puts (digits_of n) (pen out.old p) }
{
    put_digits(n, 10, out, p)
}

// Writes the name of the unit that item u begins: what stands before it, or `init`.
pub fn put_title(t: &[u32], u: usize, out: &mut [u8], p: usize) -> usize
    ensures { pen out.new result ≡ puts (title_in t.now u) (pen out.old p) }
{
    if table_layout::code(t, u) == base_codes::INIT {
        return put_all(b"init", out, p);
    }
    write_letters::put_name(t, step_eval::minus_one(u), out, p)
}

// Writes the first n fields of message m of channel c, with commas between.
fn put_fields(s: &[i32], c: u32, m: u32, n: u32, out: &mut [u8], p: usize) -> usize
    ensures { pen out.new result ≡ puts (joined_text (fields_in s.now c m 0 n)) (pen out.old p) }
{
    if n == 0 {
        return p;
    }
    let mut q = put_value(state_layout::field_of(s, c, m, 0), out, p);
    for f in 1..n {
        let a = put(out, q, b',');
        q = put_value(state_layout::field_of(s, c, m, f), out, a);
    }
    q
}

// Writes message m of channel c, both from 0, which has n fields.
pub fn put_message(s: &[i32], c: u32, m: u32, n: u32, out: &mut [u8], p: usize) -> usize
    ensures { pen out.new result ≡ puts (message_in s.now c m n) (pen out.old p) }
{
    let a = put_all(b" (", out, p);
    let b = put_fields(s, c, m, n, out, a);
    put(out, b, b')')
}
