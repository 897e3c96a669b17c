// What the rules and ceilings work on: beside the items of a model, for each item what its token says (args), the body that it is in (homes), and for an
// expression where it starts and how high it is. After this no pass looks at the text.
#![tactic(auto)]

ghost use Rattle.std.specs.Prelude.{◌≡◌, ◌+◌, ◌-◌, ◌≤◌, ◌<◌, min, length, get_or, set, leb};
ghost use Rattle.base_ceilings.specs.Ceilings.{height_most, items_most, text_most};
ghost use Rattle.base_bytes.specs.Choice.{pick};
ghost use Rattle.base_codes.specs.Sets.{is_unit};
ghost use Rattle.rule_sheets.specs.Payload.{spelled, first_same, name_arg, arg_of, args_of};
ghost use Rattle.spec_text.specs.Formats.{format_of};
ghost use Rattle.rule_sheets.specs.Homes.{homes_of};
ghost use Rattle.rule_sheets.specs.Spans.{shape_of, start_of, height_of, starts_of, heights_of};
ghost use Rattle.base_bytes.specs.Choice as choice;
ghost use Rattle.base_bytes.specs.Lists as lists;

use base_bytes::{both, either};

// The height of what is too high.
const TOO_HIGH: usize = base_ceilings::HEIGHT_MOST + 1;

pub fn choose(t: bool, a: u8, b: u8) -> u8
    ensures { result ≡ pick t a b }
{
    if t { a } else { b }
}

pub fn choose_size(t: bool, a: usize, b: usize) -> usize
    ensures { result ≡ pick t a b }
{
    if t { a } else { b }
}

// The greater of two.
fn greater(a: usize, b: usize) -> usize
    ensures { result ≡ pick (leb a b) b a }
{
    if a <= b { b } else { a }
}

// The byte k places on, 0 where there is none.
pub fn byte_on(s: &[u8], i: usize, k: usize) -> u8
    ensures { result ≡ get_or s.now (i + k) 0 }
{
    if s.len() <= i {
        return 0;
    }
    if s.len() - i <= k {
        return 0;
    }
    s[i + k]
}

// A number stored at a place, if the place is there.
fn put(s: &mut [u32], i: usize, v: usize)
    requires { v < 4294967296 }
    ensures { s.new ≡ set s.old i v }
{
    if i < s.len() {
        s[i] = v as u32;
    }
}

// Are two tokens spelled alike?
fn alike(text: &[u8], starts: &[u32], ends: &[u32], t: usize, u: usize) -> bool
    ensures { result ≡ lists.same (spelled text.now starts.now ends.now t) (spelled text.now starts.now ends.now u) }
{
    base_bytes::same(
        base_bytes::part(
            text,
            base_bytes::word_at(starts, t),
            base_bytes::word_at(ends, t),
        ),
        base_bytes::part(
            text,
            base_bytes::word_at(starts, u),
            base_bytes::word_at(ends, u),
        ),
    )
}

fn same_name(
    text: &[u8],
    starts: &[u32],
    ends: &[u32],
    codes: &[u8],
    toks: &[u32],
    j: usize,
    i: usize,
) -> bool
    ensures { result ≡ Rattle.rule_sheets.specs.Payload.same_name text.now starts.now ends.now codes.now toks.now j i }
{
    if base_bytes::byte_at(codes, i) == base_codes::NAME {
        alike(
            text,
            starts,
            ends,
            base_bytes::word_at(toks, i),
            base_bytes::word_at(toks, j),
        )
    } else {
        false
    }
}

// The first item before j that is a name with the spelling of item j; j where there is none.
fn first_same(
    text: &[u8],
    starts: &[u32],
    ends: &[u32],
    codes: &[u8],
    toks: &[u32],
    j: usize,
) -> usize
    ensures value { result ≡ first_same text.now starts.now ends.now codes.now toks.now j }
    ensures upper_bound { result ≤ j }
{
    for i in 0..j {
        if same_name(text, starts, ends, codes, toks, j, i) {
            return i;
        }
    }
    j
}

fn name_arg(
    text: &[u8],
    starts: &[u32],
    ends: &[u32],
    codes: &[u8],
    toks: &[u32],
    j: usize,
) -> usize
    requires { j < items_most }
    ensures value { result ≡ name_arg text.now starts.now ends.now codes.now toks.now j }
    ensures upper_bound { result < 4294967296 }
{
    let t = base_bytes::word_at(toks, j);
    if base_bytes::same(
        base_bytes::part(
            text,
            base_bytes::word_at(starts, t),
            base_bytes::word_at(ends, t),
        ),
        b"_pid",
    ) {
        return 0;
    }
    first_same(text, starts, ends, codes, toks, j) + 1
}

// How a format goes on at a byte: 0 nothing, 1 a `%` opens, 2 a number, 3 a bad `%`, 4 a `%` for itself.
fn move_of(opened: bool, b: u8) -> u8
    ensures { result ≡ Rattle.spec_text.specs.Formats.move_of opened b }
{
    if opened {
        choose(b == b'd', 2, choose(b == b'%', 4, 3))
    } else {
        choose(b == b'%', 1, 0)
    }
}

// What a format says: twice the number of its `%d`, and one more if some `%` is bad.
fn format_arg(s: &[u8]) -> usize
    requires { length s.now ≤ text_most }
    ensures value { result ≡ format_of s.now }
    ensures upper_bound { result < 4294967296 }
{
    let mut opened = false;
    let mut n: usize = 0;
    let mut bad: usize = 0;
    for b in s {
        let m = move_of(opened, *b);
        opened = m == 1;
        n += choose_size(m == 2, 1, 0);
        bad = choose_size(m == 3, 1, bad);
    }
    2 * n + choose_size(opened, 1, bad)
}

fn arg_of(text: &[u8], starts: &[u32], ends: &[u32], codes: &[u8], toks: &[u32], j: usize) -> usize
    requires { (j < items_most) × (length text.now ≤ text_most) }
    ensures value { result ≡ arg_of text.now starts.now ends.now codes.now toks.now j }
    ensures upper_bound { result < 4294967296 }
{
    let t = base_bytes::word_at(toks, j);
    match base_bytes::byte_at(codes, j) {
        base_codes::NAME => name_arg(text, starts, ends, codes, toks, j),
        base_codes::NUMBER => text_pieces::value(base_bytes::part(
            text,
            base_bytes::word_at(starts, t),
            base_bytes::word_at(ends, t),
        )) as usize,
        base_codes::TEXT => format_arg(base_bytes::part(
            text,
            base_bytes::word_at(starts, t),
            base_bytes::word_at(ends, t),
        )),
        _ => 0,
    }
}

// For each item what its token says, into an array; the array stays as it is for a text or a list of items past its ceiling.
pub fn fill_args(
    text: &[u8],
    starts: &[u32],
    ends: &[u32],
    codes: &[u8],
    toks: &[u32],
    args: &mut [u32],
)
    ensures { args.new ≡ args_of text.now starts.now ends.now codes.now toks.now args.old }
{
    if base_ceilings::TEXT_MOST < text.len() {
        return;
    }
    if base_ceilings::ITEMS_MOST < codes.len() {
        return;
    }
    for j in 0..codes.len() {
        put(args, j, arg_of(text, starts, ends, codes, toks, j));
    }
}

// A proctype or `init` begins here.
fn is_head(c: u8) -> bool
    ensures { result ≡ is_unit c }
{
    base_codes::within(base_codes::PROCTYPE, base_codes::INIT, c)
}

// The body that the items behind item j are in, where item j is in h.
fn inside(c: u8, j: usize, h: usize) -> usize
    requires { (j < items_most) × (h < items_most + 1) }
    ensures value { result ≡ Rattle.rule_sheets.specs.Homes.inside c j h }
    ensures upper_bound { result < items_most + 1 }
{
    if is_head(c) {
        return j + 1;
    }
    if c == base_codes::END_BODY { 0 } else { h }
}

// For each item the body that it is in.
pub fn fill_homes(codes: &[u8], homes: &mut [u32])
    ensures { homes.new ≡ homes_of codes.now homes.old }
{
    if base_ceilings::ITEMS_MOST < codes.len() {
        return;
    }
    let mut h: usize = 0;
    for (j, c) in codes.iter().enumerate() {
        put(homes, j, choose_size(is_head(*c), 0, h));
        h = inside(*c, j, h);
    }
}

// How an expression's last item builds on what stands before it: 1 a name, 2 an index, 3 one operand, 4 two, 5 three, 0 nothing.
fn shape_of(c: u8) -> u8
    ensures { result ≡ shape_of c }
{
    choose(
        c == base_codes::PLAIN,
        1,
        choose(
            c == base_codes::INDEX,
            2,
            choose(
                either(
                    c == base_codes::LEN,
                    both(base_codes::REMAINDER < c, c < base_codes::BIT),
                ),
                3,
                choose(
                    both(146 < c, c < base_codes::NEGATE),
                    4,
                    choose(c == base_codes::CHOICE, 5, 0),
                ),
            ),
        ),
    )
}

fn start_of(codes: &[u8], starts: &[u32], j: usize) -> usize
    requires { j < items_most }
    ensures value { result ≡ start_of codes.now starts.now j }
    ensures upper_bound { result < 4294967296 }
{
    let last = base_bytes::word_at(starts, base_bytes::minus(j, 1));
    match shape_of(base_bytes::byte_at(codes, j)) {
        1 => base_bytes::minus(j, 1),
        2 => base_bytes::minus(last, 1),
        3 => last,
        4 => base_bytes::word_at(starts, base_bytes::minus(last, 1)),
        5 => base_bytes::word_at(
            starts,
            base_bytes::minus(base_bytes::word_at(starts, base_bytes::minus(last, 2)), 1),
        ),
        _ => j,
    }
}

// For each item where the expression that ends with it starts.
pub fn fill_starts(codes: &[u8], starts: &mut [u32])
    ensures { starts.new ≡ starts_of codes.now starts.old }
{
    if base_ceilings::ITEMS_MOST < codes.len() {
        return;
    }
    for j in 0..codes.len() {
        let v = start_of(codes, starts, j);
        put(starts, j, v);
    }
}

// One above h; 33 stands for all that is higher.
fn above(h: usize) -> usize
    ensures value { result ≡ min (height_most + 1) (h + 1) }
    ensures upper_bound { result < 4294967296 }
{
    if h < base_ceilings::HEIGHT_MOST {
        h + 1
    } else {
        TOO_HIGH
    }
}

fn height_of(codes: &[u8], starts: &[u32], heights: &[u32], j: usize) -> usize
    ensures value { result ≡ height_of codes.now starts.now heights.now j }
    ensures upper_bound { result < 4294967296 }
{
    let i = base_bytes::minus(j, 1);
    let last = base_bytes::word_at(starts, i);
    let h = base_bytes::word_at(heights, i);
    match shape_of(base_bytes::byte_at(codes, j)) {
        2 => above(h),
        3 => above(h),
        4 => above(greater(h, base_bytes::word_at(heights, base_bytes::minus(last, 1)))),
        5 => above(greater(
            h,
            greater(
                base_bytes::word_at(heights, base_bytes::minus(last, 2)),
                base_bytes::word_at(
                    heights,
                    base_bytes::minus(base_bytes::word_at(starts, base_bytes::minus(last, 2)), 1),
                ),
            ),
        )),
        _ => 1,
    }
}

// For each item the height of the expression that ends with it.
pub fn fill_heights(codes: &[u8], starts: &[u32], heights: &mut [u32])
    ensures { heights.new ≡ heights_of codes.now starts.now heights.old }
{
    if base_ceilings::ITEMS_MOST < codes.len() {
        return;
    }
    for j in 0..codes.len() {
        let v = height_of(codes, starts, heights, j);
        put(heights, j, v);
    }
}
