// The tables of a model: built from its items, and read.
#![tactic(auto)]

ghost use Rattle.std.specs.Prelude.{◌≡◌, ◌<◌, ◌≤◌, ◌*◌, length};
ghost use Rattle.base_ceilings.specs.Ceilings.{items_most, string_most};
ghost use Rattle.base_pens.specs.Pen.{pen, puts};
ghost use Rattle.table_entries.specs.Entry.{number, bytes, joined, runs};
ghost use Rattle.table_entries.specs.Sources.{entry_at, entries_of};
ghost use Rattle.table_layout.specs.Tables.{item_word, item_words, linked, numbers, tables_of};
ghost use Rattle.table_layout.specs.Access.{length_of, items_of, code_of, arg_of, link_of, number_of, name_length, name_byte};
ghost use Rattle.table_layout.specs.Tables as spec;

// Offsets in the pool, as an item's word keeps them.
const POOL_MOST: usize = 2 * base_ceilings::TEXT_MOST - 1;

fn one(c: u8) -> usize
    ensures value { result ≡ spec.one c }
    ensures upper_bound { result ≤ 1 }
{
    if c == base_codes::NUMBER { 1 } else { 0 }
}

fn item_word(c: u8, n: usize, o: usize, k: usize) -> u32
    requires { (n ≤ string_most) × (k ≤ items_most) }
    ensures { result ≡ item_word c n o k }
{
    let at = base_bytes::least(POOL_MOST, o);
    match c {
        71 => (71 + 256 * k) as u32,
        70 => (70 + 256 * (n + 128 * at)) as u32,
        72 => (72 + 256 * (n + 128 * at)) as u32,
        _ => c as u32,
    }
}

// How many bytes the first n items have.
fn count_bytes(
    text: &[u8],
    starts: &[u32],
    ends: &[u32],
    codes: &[u8],
    toks: &[u32],
    n: usize,
) -> usize
    requires { n ≤ items_most }
    ensures value { result ≡ length (joined bytes (runs (entry_at text.now starts.now ends.now codes.now toks.now) 0 n)) }
    ensures upper_bound { result ≤ string_most * n }
{
    let mut sum: usize = 0;
    for i in 0..n {
        sum += table_entries::size_at(text, starts, ends, codes, toks, i);
    }
    sum
}

// How many of the first n items are numbers.
fn count_numbers(
    text: &[u8],
    starts: &[u32],
    ends: &[u32],
    codes: &[u8],
    toks: &[u32],
    n: usize,
) -> usize
    requires { n ≤ items_most }
    ensures value { result ≡ length (numbers (runs (entry_at text.now starts.now ends.now codes.now toks.now) 0 n)) }
    ensures upper_bound { result ≤ n }
{
    let mut sum: usize = 0;
    for i in 0..n {
        sum += one(base_bytes::byte_at(codes, i));
    }
    sum
}

fn put_items(
    text: &[u8],
    starts: &[u32],
    ends: &[u32],
    codes: &[u8],
    toks: &[u32],
    n: usize,
    out: &mut [u32],
    p: usize,
) -> usize
    requires { n ≤ items_most }
    ensures { pen out.new result ≡ puts (item_words 0 0 (runs (entry_at text.now starts.now ends.now codes.now toks.now) 0 n)) (pen out.old p) }
{
    let mut q = p;
    let mut o: usize = 0;
    let mut k: usize = 0;
    for i in 0..n {
        let c = base_bytes::byte_at(codes, i);
        let size = table_entries::size_at(text, starts, ends, codes, toks, i);
        q = base_pens::put(out, q, item_word(c, size, o, k));
        o += size;
        k += one(c);
    }
    q
}

fn put_links(links: &[u32], n: usize, out: &mut [u32], p: usize) -> usize
    ensures { pen out.new result ≡ puts (linked links.now 0 n) (pen out.old p) }
{
    let mut q = p;
    for i in 0..n {
        q = base_pens::put(out, q, base_bytes::word_at(links, i) as u32);
    }
    q
}

fn put_number(
    text: &[u8],
    starts: &[u32],
    ends: &[u32],
    codes: &[u8],
    toks: &[u32],
    i: usize,
    out: &mut [u32],
    p: usize,
) -> usize
    ensures { pen out.new result ≡ puts (number (entry_at text.now starts.now ends.now codes.now toks.now i)) (pen out.old p) }
{
    if base_bytes::byte_at(codes, i) == base_codes::NUMBER {
        base_pens::put(
            out,
            p,
            table_entries::value_at(text, starts, ends, codes, toks, i),
        )
    } else {
        p
    }
}

fn put_numbers(
    text: &[u8],
    starts: &[u32],
    ends: &[u32],
    codes: &[u8],
    toks: &[u32],
    n: usize,
    out: &mut [u32],
    p: usize,
) -> usize
    ensures { pen out.new result ≡ puts (numbers (runs (entry_at text.now starts.now ends.now codes.now toks.now) 0 n)) (pen out.old p) }
{
    let mut q = p;
    for i in 0..n {
        q = put_number(text, starts, ends, codes, toks, i, out, q);
    }
    q
}

fn put_pool(
    text: &[u8],
    starts: &[u32],
    ends: &[u32],
    codes: &[u8],
    toks: &[u32],
    n: usize,
    out: &mut [u32],
    p: usize,
) -> usize
    ensures { pen out.new result ≡ puts (spec.pool (runs (entry_at text.now starts.now ends.now codes.now toks.now) 0 n)) (pen out.old p) }
{
    let mut w = base_pens::Ink {
        at: p,
        held: 0,
        a: 0,
        b: 0,
        c: 0,
    };
    for i in 0..n {
        w = table_entries::pour_at(text, starts, ends, codes, toks, i, out, w);
    }
    base_pens::settle(out, w)
}

// Writes the tables at the front of out, as far as it reaches.
pub fn build(
    text: &[u8],
    starts: &[u32],
    ends: &[u32],
    codes: &[u8],
    toks: &[u32],
    links: &[u32],
    out: &mut [u32],
) -> usize
    ensures { pen out.new result ≡ puts (tables_of (entries_of text.now starts.now ends.now codes.now toks.now) links.now) (pen out.old 0) }
{
    let n = base_bytes::least(base_ceilings::ITEMS_MOST, codes.len());
    let k = count_numbers(text, starts, ends, codes, toks, n);
    let words = (count_bytes(text, starts, ends, codes, toks, n) + 3) / 4;
    let a = base_pens::put(out, 0, (4 + 2 * n + k + words) as u32);
    let b = base_pens::put(out, a, n as u32);
    let c = base_pens::put(out, b, k as u32);
    let d = base_pens::put(out, c, words as u32);
    let e = put_items(text, starts, ends, codes, toks, n, out, d);
    let f = put_links(links, n, out, e);
    let g = put_numbers(text, starts, ends, codes, toks, n, out, f);
    put_pool(text, starts, ends, codes, toks, n, out, g)
}

// How many numbers the tables have.
pub fn length_of(t: &[u32]) -> usize
    ensures { result ≡ length_of t.now }
{
    base_bytes::word_at(t, 0)
}

// How many items.
pub fn items(t: &[u32]) -> usize
    ensures value { result ≡ items_of t.now }
    ensures upper_bound { result < 4294967296 }
{
    base_bytes::word_at(t, 1)
}

// The code of item i; 0 where there is no such item.
pub fn code(t: &[u32], i: usize) -> u8
    ensures { result ≡ code_of t.now i }
{
    if i < items(t) {
        (base_bytes::word_on(t, 4, i) % 256) as u8
    } else {
        0
    }
}

// Its argument.
pub fn arg(t: &[u32], i: usize) -> usize
    ensures value { result ≡ arg_of t.now i }
    ensures upper_bound { result < 16777216 }
{
    base_bytes::word_on(t, 4, i) / 256
}

// Its link.
pub fn link(t: &[u32], i: usize) -> usize
    ensures value { result ≡ link_of t.now i }
    ensures upper_bound { result < 4294967296 }
{
    base_bytes::word_on(t, 4 + items(t), i)
}

// Its value, if it is a number.
pub fn number(t: &[u32], i: usize) -> usize
    ensures value { result ≡ number_of t.now i }
    ensures upper_bound { result < 4294967296 }
{
    base_bytes::word_on(t, 4 + 2 * items(t), arg(t, i))
}

// How many bytes it has, if it is a name or a string.
pub fn name_length(t: &[u32], i: usize) -> usize
    ensures value { result ≡ name_length t.now i }
    ensures upper_bound { result < 128 }
{
    arg(t, i) % 128
}

fn pool_byte(t: &[u32], j: usize) -> u8
    ensures { result ≡ Rattle.table_layout.specs.Access.pool_byte t.now j }
{
    base_pens::digit(
        j % 4,
        base_bytes::word_on(t, 4 + 2 * items(t) + base_bytes::word_at(t, 2), j / 4),
    )
}

// Byte k of it; 0 past its end.
pub fn name_byte(t: &[u32], i: usize, k: usize) -> u8
    ensures { result ≡ name_byte t.now i k }
{
    if k < name_length(t, i) {
        pool_byte(t, arg(t, i) / 128 + k)
    } else {
        0
    }
}
