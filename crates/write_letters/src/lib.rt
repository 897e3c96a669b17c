// The tokens of tables, by their numbers: what they hold is spelled, and each is written with one space where it would otherwise join the one before.
#![tactic(auto)]

ghost use Rattle.std.specs.Prelude.{◌≡◌, [], ◌∷◌, map, ◌-◌};
ghost use Rattle.base_bytes.specs.Choice.{pick};
ghost use Rattle.base_pens.specs.Pen.{pen, puts};
ghost use Rattle.base_kinds.specs.Kinds.{kind_of};
ghost use Rattle.spec_text.specs.Writing.{spell, write};
ghost use Rattle.write_letters.specs.Tokens.{spelled, held_of, token_by, behind};

// Writes the bytes of the name or string that item i is.
pub fn put_name(t: &[u32], i: usize, out: &mut [u8], p: usize) -> usize
    ensures { pen out.new result ≡ puts (spelled t.now i) (pen out.old p) }
{
    let n = table_layout::name_length(t, i);
    let mut q = p;
    for k in 0..n {
        q = text_pens::put(out, q, table_layout::name_byte(t, i, k));
    }
    q
}

// Writes what item i holds.
fn put_held(t: &[u32], i: usize, out: &mut [u8], p: usize) -> usize
    ensures { pen out.new result ≡ puts (spell (held_of t.now i)) (pen out.old p) }
{
    let c = table_layout::code(t, i);
    if c == base_codes::NUMBER {
        return text_pens::put_digits(table_layout::number(t, i) as u32, 10, out, p);
    }
    if c == base_codes::TEXT {
        let a = text_pens::put(out, p, b'"');
        let b = put_name(t, i, out, a);
        return text_pens::put(out, b, b'"');
    }
    put_name(t, i, out, p)
}

// The item of a token's number.
fn item_of(v: u32) -> usize
    ensures { result ≡ v - 256 }
{
    v.saturating_sub(256) as usize
}

// Writes the token of number v.
fn put_spelling(t: &[u32], v: u32, out: &mut [u8], p: usize) -> usize
    ensures { pen out.new result ≡ puts (spell (token_by t.now v)) (pen out.old p) }
{
    if v < 70 {
        return text_pens::put_fixed(v as u8, out, p);
    }
    put_held(t, item_of(v), out, p)
}

// Its kind.
pub fn kind_by(t: &[u32], v: u32) -> u8
    ensures { result ≡ kind_of (token_by t.now v) }
{
    if v < 70 {
        return v as u8;
    }
    let c = table_layout::code(t, item_of(v));
    if c == base_codes::NUMBER {
        return 71;
    }
    if c == base_codes::TEXT { 72 } else { 70 }
}

fn space_if(b: bool, out: &mut [u8], p: usize) -> usize
    ensures { pen out.new result ≡ puts (pick b (32 ∷ []) []) (pen out.old p) }
{
    if b { text_pens::put(out, p, b' ') } else { p }
}

// Writes the token of number v behind a token of kind k. No token is longer than 129 bytes.
pub fn put_token(t: &[u32], k: u8, v: u32, out: &mut [u8], p: usize) -> usize
    ensures { pen out.new result ≡ puts (behind k (token_by t.now v)) (pen out.old p) }
{
    let mut buffer = [0u8; 160];
    let n = put_spelling(t, v, &mut buffer, 0);
    let w = &buffer[0..n];
    let q = space_if(text_pens::joins(k, base_bytes::byte_at(w, 0)), out, p);
    text_pens::put_all(w, out, q)
}

// Writes the tokens of these numbers, one after the other.
pub fn put_tokens(t: &[u32], toks: &[u32], out: &mut [u8], p: usize) -> usize
    ensures { pen out.new result ≡ puts (write (map (token_by t.now) toks.now)) (pen out.old p) }
{
    let mut k: u8 = 72;
    let mut q = p;
    for v in toks {
        q = put_token(t, k, *v, out, q);
        k = kind_by(t, *v);
    }
    q
}
