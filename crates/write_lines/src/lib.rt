// Tokens laid out in lines, by their kinds alone: the printed edition of a model.
#![tactic(auto)]

ghost use Rattle.std.specs.Prelude.{◌≡◌, map, ◌+◌, ◌<◌, ◌≤◌, ◌^◌};
ghost use Rattle.base_pens.specs.Pen.{pen, puts};
ghost use Rattle.write_letters.specs.Tokens.{token_by};
ghost use Rattle.write_lines.specs.Lines as spec;

// Places: before all units, among units that have no body, in a body, in a head; and LIST more in a list in braces there.
const START: u8 = 0;

const UNIT: u8 = 1;

const BODY: u8 = 2;

const HEAD: u8 = 3;

const LIST: u8 = 4;

fn begins_head(k: u8) -> bool
    ensures { result ≡ spec.begins_head k }
{
    base_bytes::either(
        k == base_kinds::ACTIVE,
        base_bytes::either(k == base_kinds::INIT, k == base_kinds::PROCTYPE),
    )
}

fn begins_unit(k: u8) -> bool
    ensures { result ≡ spec.begins_unit k }
{
    base_bytes::either(
        base_bytes::both(base_kinds::BIT <= k, k <= base_kinds::INT),
        begins_head(k),
    )
}

// The place behind a token of kind k.
fn place_behind(p: u8, k: u8) -> u8
    ensures { result ≡ spec.place_behind p k }
{
    if LIST <= p {
        if k == base_kinds::CLOSE_BRACE {
            return p - LIST;
        }
        return p;
    }
    if p == HEAD {
        if k == base_kinds::OPEN_BRACE {
            return BODY;
        }
        return HEAD;
    }
    if p == BODY {
        if k == base_kinds::OPEN_BRACE {
            return BODY + LIST;
        }
        if k == base_kinds::CLOSE_BRACE {
            return UNIT;
        }
        return BODY;
    }
    if begins_head(k) {
        return HEAD;
    }
    if k == base_kinds::OPEN_BRACE {
        UNIT + LIST
    } else {
        UNIT
    }
}

fn bodies(p: u8) -> usize
    ensures value { result ≡ spec.bodies p }
    ensures upper_bound { result ≤ 1 }
{
    if base_bytes::either(p == BODY, p == BODY + LIST) {
        1
    } else {
        0
    }
}

fn opens(k: u8) -> bool
    ensures { result ≡ spec.opens k }
{
    base_bytes::either(k == base_kinds::IF, k == base_kinds::DO)
}

fn closes(k: u8) -> bool
    ensures { result ≡ spec.closes k }
{
    base_bytes::either(k == base_kinds::FI, k == base_kinds::OD)
}

// How many selections are open behind a token of kind k.
fn open_behind(k: u8, s: usize) -> usize
    requires { s < 2 ^ 61 }
    ensures value { result ≡ spec.open_behind k s }
    ensures upper_bound { result ≤ s + 1 }
{
    if opens(k) {
        return s + 1;
    }
    if closes(k) {
        base_bytes::minus(s, 1)
    } else {
        s
    }
}

// Does a line begin with a token of kind k?
fn starts_line(p: u8, k: u8) -> bool
    ensures { result ≡ spec.starts_line p k }
{
    let unit = base_bytes::both(p == UNIT, begins_unit(k));
    let left = base_bytes::both(p == HEAD, k == base_kinds::OPEN_BRACE);
    let right = base_bytes::both(p == BODY, k == base_kinds::CLOSE_BRACE);
    let option = base_bytes::either(closes(k), k == base_kinds::OPTION);
    base_bytes::either(
        unit,
        base_bytes::either(left, base_bytes::either(right, option)),
    )
}

// Does a line end with it?
fn ends_line(p: u8, k: u8) -> bool
    ensures { result ≡ spec.ends_line p k }
{
    let left = base_bytes::both(p == HEAD, k == base_kinds::OPEN_BRACE);
    let semicolon = base_bytes::both(p == BODY, k == base_kinds::SEMICOLON);
    let option = base_bytes::either(opens(k), k == base_kinds::OPTION);
    base_bytes::either(left, base_bytes::either(semicolon, option))
}

// The line end and the margin before a token that begins a line.
fn put_margin(b: bool, d: usize, out: &mut [u8], p: usize) -> usize
    requires { d ≤ 2 ^ 61 }
    ensures { pen out.new result ≡ puts (spec.margin_if b d) (pen out.old p) }
{
    if b {
        let q = text_pens::put(out, p, b'\n');
        return text_pens::put_times(b' ', 2 * d, out, q);
    }
    p
}

// The kind before a token on its line: behind a string nothing joins.
fn kind_before(b: bool, k: u8) -> u8
    ensures { result ≡ spec.kind_before b k }
{
    if b { base_kinds::STRING } else { k }
}

// Writes a token of number v and kind b behind one of kind k, where s selections are open at place p; `new`: it begins a line.
fn put_next(
    t: &[u32],
    new: bool,
    k: u8,
    p: u8,
    s: usize,
    v: u32,
    b: u8,
    out: &mut [u8],
    q: usize,
) -> usize
    requires { s < 2 ^ 61 }
    ensures { pen out.new result ≡ puts (spec.laid_next new k p s b (token_by t.now v)) (pen out.old q) }
{
    let d = base_bytes::least(s, open_behind(b, s))
        + base_bytes::least(bodies(p), bodies(place_behind(p, b)));
    let w = put_margin(new, d, out, q);
    write_letters::put_token(t, kind_before(new, k), v, out, w)
}

// Writes the tokens of these numbers in lines. No more selections are open than tokens stand before, and a slice has fewer than 2 ^ 61.
pub fn put_lines(t: &[u32], toks: &[u32], out: &mut [u8], p: usize) -> usize
    ensures { pen out.new result ≡ puts (spec.lay_all (map (token_by t.now) toks.now)) (pen out.old p) }
{
    let mut k: u8 = base_kinds::STRING;
    let mut place: u8 = START;
    let mut open: usize = 0;
    let mut ended = false;
    let mut q = p;
    for v in toks {
        let b = write_letters::kind_by(t, *v);
        q = put_next(
            t,
            base_bytes::either(ended, starts_line(place, b)),
            k,
            place,
            open,
            *v,
            b,
            out,
            q,
        );
        ended = ends_line(place, b);
        place = place_behind(place, b);
        open = open_behind(b, open);
        k = b;
    }
    text_pens::put(out, q, b'\n')
}
