// The links of a model, one number for each item: declarations, marks, ends and the places that follow, so that a stepper finds all it needs at once.
#![tactic(auto)]

ghost use Rattle.std.specs.Prelude.{◌≡◌, ◌+◌, ◌-◌, ◌≤◌, ◌<◌, min, length, get_or, set};
ghost use Rattle.base_ceilings.specs.Ceilings.{items_most};
ghost use Rattle.link_items.specs.Links.{size_kept};
ghost use Rattle.rule_search.specs.Chain.{Chained};
ghost use Rattle.rule_search.specs.Search as seek;
ghost use Rattle.base_codes.specs.Sets as sets;
ghost use Rattle.link_items.specs.Links as spec;

use base_bytes::{minus, word_at};
use rule_search::{count, find, lookup};

// Sizes as a link keeps them.
const SIZE_KEPT: usize = 2 * base_ceilings::ARRAY_MOST - 1;

// The code of the first type.
const FIRST_TYPE: usize = base_codes::BIT as usize;

fn type_at(codes: &[u8], d: usize) -> usize
    ensures value { result ≡ spec.type_at codes.now d }
    ensures upper_bound { result ≤ 7 }
{
    let c = base_bytes::byte_at(codes, minus(rule_search::after(codes, 3, d), 2)) as usize;
    base_bytes::least(7, minus(c, FIRST_TYPE))
}

fn size_at(codes: &[u8], args: &[u32], d: usize) -> usize
    ensures value { result ≡ spec.size_at codes.now args.now d }
    ensures upper_bound { result ≤ size_kept }
{
    if rule_item::is_array(codes, d) {
        base_bytes::least(SIZE_KEPT, base_bytes::word_on(args, d, 1))
    } else {
        1
    }
}

fn local_at(homes: &[u32], d: usize) -> usize
    ensures value { result ≡ spec.local_at homes.now d }
    ensures upper_bound { result ≤ 1 }
{
    if word_at(homes, d) == 0 { 0 } else { 1 }
}

fn offset_at(codes: &[u8], args: &[u32], homes: &[u32], d: usize) -> usize
    requires { d ≤ items_most }
    ensures value { result ≡ spec.offset_at codes.now args.now homes.now d }
    ensures upper_bound { result ≤ 65535 }
{
    let mut n: usize = 0;
    for j in 0..d {
        n += rule_ceilings::numbers_at(codes, args, homes, word_at(homes, d), j);
    }
    base_bytes::least(65535, n)
}

// A variable's type, whether it is local, its size and where its numbers begin, in one number.
fn slot_at(codes: &[u8], args: &[u32], homes: &[u32], d: usize) -> usize
    requires { d ≤ items_most }
    ensures { result ≡ spec.slot_at codes.now args.now homes.now d }
{
    let t = type_at(codes, d);
    let h = local_at(homes, d);
    let s = size_at(codes, args, d);
    t + 8 * h + 16 * s + 1024 * offset_at(codes, args, homes, d)
}

// The class of an item's link, sixteen items to a line.
fn class_of(c: u8) -> u8
    ensures { result ≡ sets.class_of c }
{
    base_bytes::byte_at(
        b"\
\x00\x00\x00\x00\x00\x00\x00\x00\x00\x00\x00\x00\x00\x00\x00\x00\
\x00\x00\x00\x00\x00\x00\x00\x00\x00\x00\x00\x00\x00\x00\x00\x00\
\x00\x00\x00\x00\x00\x00\x00\x00\x00\x00\x00\x00\x00\x00\x00\x00\
\x00\x00\x00\x00\x00\x00\x00\x00\x00\x00\x00\x00\x00\x00\x00\x00\
\x00\x00\x00\x00\x00\x00\x05\x05\x06\x00\x00\x00\x00\x00\x00\x00\
\x00\x00\x00\x00\x00\x00\x00\x00\x00\x00\x00\x00\x00\x00\x00\x00\
\x00\x00\x00\x00\x00\x00\x00\x00\x00\x00\x00\x00\x00\x00\x00\x00\
\x00\x00\x00\x00\x00\x00\x00\x00\x00\x00\x00\x00\x00\x00\x00\x00\
\x00\x00\x00\x00\x00\x00\x00\x00\x00\x00\x00\x00\x00\x00\x00\x00\
\x00\x00\x00\x04\x04\x04\x04\x04\x04\x04\x04\x04\x04\x04\x04\x04\
\x04\x04\x04\x04\x04\x00\x00\x00\x00\x00\x00\x00\x00\x00\x00\x00\
\x01\x01\x05\x05\x00\x04\x04\x00\x00\x00\x00\x07\x00\x07\x05\x07\
\x07\x07\x06\x06\x07\x07\x08\x09\x07\x07\x03\x03\x0a\x07\x0a\x07\
\x0b\x00\x00\x00\x0e\x00\x00\x00\x02\x00\x00\x00\x0f\x00\x0e\x0c\
\x0c\x0c\x0c\x0d\x00\x00\x00\x00\x00\x00\x00\x00\x00\x00\x00\x00\
\x00\x00\x00\x00\x00\x00\x00\x00\x00\x00\x00\x00\x00\x00\x00\x00",
        c as usize,
    )
}

// The declaration that the name at item m means to item j.
fn meant(codes: &[u8], args: &[u32], homes: &[u32], chain: &[u32], m: usize, j: usize) -> usize
    requires { Chained codes.now args.now chain.now }
    ensures { result ≡ seek.lookup codes.now args.now homes.now (get_or args.now m 0) (get_or homes.now j 0) m }
{
    lookup(
        codes,
        args,
        homes,
        chain,
        word_at(args, m),
        word_at(homes, j),
        m,
    )
}

// The label that the goto at item j names.
fn label_of(codes: &[u8], args: &[u32], homes: &[u32], chain: &[u32], j: usize) -> usize
    requires { Chained codes.now args.now chain.now }
    ensures { result ≡ seek.find codes.now args.now homes.now 2 (get_or args.now (j - 1) 0) (get_or homes.now j 0) (length codes.now) }
{
    let n = codes.len();
    find(
        codes,
        args,
        homes,
        chain,
        2,
        word_at(args, minus(j, 1)),
        word_at(homes, j),
        n,
    )
}

// The link of item j by its class, where those behind it are filled.
fn link_by(
    codes: &[u8],
    args: &[u32],
    homes: &[u32],
    chain: &[u32],
    starts: &[u32],
    links: &[u32],
    class: u8,
    j: usize,
) -> usize
    requires { (j < length codes.now) × (length codes.now ≤ items_most) × Chained codes.now args.now chain.now }
    ensures { result ≡ spec.link_by codes.now args.now homes.now starts.now class links.now j }
{
    match class {
        1 => meant(codes, args, homes, chain, word_at(starts, j), j),
        2 => meant(codes, args, homes, chain, minus(j, 1), j),
        3 => rule_item::global(codes, args, homes, chain, minus(j, 1)),
        4 => word_at(starts, minus(j, 1)),
        5 => link_places::mark_from(codes, j + 1),
        6 => link_places::close_of(codes, 4, j + 1),
        7 => link_places::next_from(codes, links, j + 1),
        8 => link_places::place_from(codes, label_of(codes, args, homes, chain, j)),
        9 => link_places::past_loop(codes, links, j),
        10 => link_places::close_of(codes, 0, j + 1),
        11 => link_places::close_of(codes, 2, j + 1),
        12 => link_places::close_of(codes, 3, j + 1),
        13 => link_places::place_from(codes, j + 1),
        14 => slot_at(codes, args, homes, j),
        15 => count(codes, homes, 12, 0, 0, j + 1),
        _ => 0,
    }
}

// A number stored at a place, if the place is there, as far as 32 bits reach.
fn put(s: &mut [u32], i: usize, v: usize)
    ensures { s.new ≡ set s.old i (min 4294967295 v) }
{
    if i < s.len() {
        s[i] = base_bytes::least(4294967295, v) as u32;
    }
}

// All links, the last first.
fn fill_back(
    codes: &[u8],
    args: &[u32],
    homes: &[u32],
    chain: &[u32],
    starts: &[u32],
    links: &mut [u32],
)
    requires { (length codes.now ≤ items_most) × Chained codes.now args.now chain.now }
    ensures { links.new ≡ spec.filled_back codes.now args.now homes.now starts.now (length codes.now) links.old }
{
    for j in (0..codes.len()).rev() {
        let v = link_by(
            codes,
            args,
            homes,
            chain,
            starts,
            links,
            class_of(codes[j]),
            j,
        );
        put(links, j, v);
    }
}

// The links of a model, into an array that stays as it is where there are too many items.
pub fn fill_links(codes: &[u8], args: &[u32], links: &mut [u32])
    ensures { links.new ≡ spec.links_of codes.now args.now links.old }
{
    if base_ceilings::ITEMS_MOST < codes.len() {
        return;
    }
    let mut homes = [0u32; base_ceilings::ITEMS_MOST];
    let mut starts = [0u32; base_ceilings::ITEMS_MOST];
    let mut chain = [0u32; rule_search::CHAIN_ROOM];
    rule_sheets::fill_homes(codes, &mut homes);
    rule_sheets::fill_starts(codes, &mut starts);
    rule_search::fill_chain(codes, args, &mut chain);
    fill_back(codes, args, &homes, &chain, &starts, links);
}
