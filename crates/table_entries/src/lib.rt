// The entries of a model's items, read from the text, the places of its tokens, and the items' codes and tokens.
#![tactic(auto)]

ghost use Rattle.std.specs.Prelude.{◌≡◌, ◌-◌, ◌<◌, ◌≤◌, length};
ghost use Rattle.base_ceilings.specs.Ceilings.{string_most};
ghost use Rattle.base_pens.specs.Pen.{pen};
ghost use Rattle.base_pens.specs.Pack.{well};
ghost use Rattle.table_entries.specs.Sources.{clipped, bytes_of, value_of, entry_at};
ghost use Rattle.base_pens.specs.Pack as pack;

// The part of a text from a place to a place, of at most 64 bytes.
fn clip(text: &[u8], from: usize, to: usize) -> &[u8]
    requires { from ≤ 4294967296 }
    ensures { result.now ≡ clipped text.now from to }
{
    base_bytes::part(
        text,
        from,
        base_bytes::least(to, from + base_ceilings::STRING_MOST),
    )
}

// The bytes of an item of code c whose token reaches from a place to a place.
fn bytes_of(text: &[u8], c: u8, from: usize, to: usize) -> &[u8]
    requires { from < 4294967296 }
    ensures { result.now ≡ bytes_of text.now c from to }
{
    if c == base_codes::NAME {
        return clip(text, from, to);
    }
    if c == base_codes::TEXT {
        return clip(text, from + 1, to.saturating_sub(1));
    }
    &text[..0]
}

// Its value.
fn value_of(text: &[u8], c: u8, from: usize, to: usize) -> u32
    ensures { result ≡ value_of text.now c from to }
{
    if c == base_codes::NUMBER {
        text_pieces::value(base_bytes::part(text, from, to)) as u32
    } else {
        0
    }
}

// How many bytes item i has.
pub fn size_at(
    text: &[u8],
    starts: &[u32],
    ends: &[u32],
    codes: &[u8],
    toks: &[u32],
    i: usize,
) -> usize
    ensures value { result ≡ length (entry_at text.now starts.now ends.now codes.now toks.now i).bytes }
    ensures upper_bound { result ≤ string_most }
{
    let t = base_bytes::word_at(toks, i);
    let s = bytes_of(
        text,
        base_bytes::byte_at(codes, i),
        base_bytes::word_at(starts, t),
        base_bytes::word_at(ends, t),
    );
    s.len()
}

// The value of item i.
pub fn value_at(
    text: &[u8],
    starts: &[u32],
    ends: &[u32],
    codes: &[u8],
    toks: &[u32],
    i: usize,
) -> u32
    ensures { result ≡ (entry_at text.now starts.now ends.now codes.now toks.now i).value }
{
    let t = base_bytes::word_at(toks, i);
    value_of(
        text,
        base_bytes::byte_at(codes, i),
        base_bytes::word_at(starts, t),
        base_bytes::word_at(ends, t),
    )
}

// The bytes of item i, packed after those before.
pub fn pour_at(
    text: &[u8],
    starts: &[u32],
    ends: &[u32],
    codes: &[u8],
    toks: &[u32],
    i: usize,
    out: &mut [u32],
    w: base_pens::Ink,
) -> base_pens::Ink
    ensures { well (pen out.new result.at) result.held result.a result.b result.c ≡ pack.pour (entry_at text.now starts.now ends.now codes.now toks.now i).bytes (well (pen out.old w.at) w.held w.a w.b w.c) }
{
    let t = base_bytes::word_at(toks, i);
    base_pens::pour(
        bytes_of(
            text,
            base_bytes::byte_at(codes, i),
            base_bytes::word_at(starts, t),
            base_bytes::word_at(ends, t),
        ),
        out,
        w,
    )
}
