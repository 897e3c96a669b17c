// Searches over the items of a model: sets of items, declarations by name and body, counts.
// Declarations are found along a chain, which a caller has filled (`fill_chain`) and lends: what a search finds is said for a chain that passes no declaration over.
#![tactic(auto)]

ghost use Rattle.std.specs.Prelude.{◌≡◌, ◌≤◌, ◌<◌, set};
ghost use Rattle.base_ceilings.specs.Ceilings.{items_most};
ghost use Rattle.rule_sheets.specs.Walks.{filled};
ghost use Rattle.rule_search.specs.Chain.{is_named, Chained, linked, chain_of, head_of, next_of};
ghost use Rattle.rule_search.specs.Sets as sets;
ghost use Rattle.rule_search.specs.Search as finding;

use base_bytes::{both, either, minus, word_at};
use base_codes::{is_opener, is_statement, within};

// The numbers of a chain: one for each name and one for each item.
pub const CHAIN_ROOM: usize = 2 * base_ceilings::ITEMS_MOST;

// Does an item belong to a set?
pub fn among(set: u8, c: u8) -> bool
    ensures { result ≡ sets.among set c }
{
    match set {
        1 => either(
            c == base_codes::DECLARED,
            either(
                c == base_codes::MESSAGE,
                within(base_codes::PARAMETER, base_codes::ACTIVE_MANY, c),
            ),
        ),
        2 => c == base_codes::LABEL,
        3 => either(
            within(base_codes::LOCAL, base_codes::GLOBAL, c),
            c == base_codes::GROUP,
        ),
        4 => is_opener(c),
        5 => within(base_codes::ARGUMENT, base_codes::CONSTANT, c),
        6 => c == base_codes::PARAMETER,
        7 => c == base_codes::DO,
        8 => c == base_codes::OD,
        9 => c == base_codes::MTYPES,
        10 => c == base_codes::INIT,
        11 => is_statement(c),
        12 => c == base_codes::MESSAGE,
        13 => within(base_codes::PROCTYPE, base_codes::ACTIVE_MANY, c),
        14 => either(c == base_codes::DECLARED, c == base_codes::PARAMETER),
        15 => within(base_codes::PROCTYPE, base_codes::INIT, c),
        16 => c == base_codes::CHANNEL,
        _ => false,
    }
}

// Item d of the body h declares the name w, in a set.
fn declares(
    codes: &[u8],
    args: &[u32],
    homes: &[u32],
    set: u8,
    w: usize,
    h: usize,
    d: usize,
) -> bool
    ensures { result ≡ finding.declares codes.now args.now homes.now set w h d }
{
    if among(set, base_bytes::byte_at(codes, d)) {
        both(word_at(args, minus(d, 1)) == w, word_at(homes, d) == h)
    } else {
        false
    }
}

// Does an item declare a name or a label?
fn is_named(c: u8) -> bool
    ensures { result ≡ is_named c }
{
    either(among(1, c), among(2, c))
}

// A number stored at a place, if the place is there.
fn put(s: &mut [u32], i: usize, v: usize)
    requires { v < 4294967296 }
    ensures { s.new ≡ set s.old i v }
{
    if i < s.len() {
        s[i] = v as u32;
    }
}

// No name has a declaration below n.
fn clear(n: usize, chain: &mut [u32])
    requires { n ≤ items_most }
    ensures { chain.new ≡ filled (λ l w. n) 0 n chain.old }
{
    for w in 0..n {
        put(chain, w, n);
    }
}

// Item j goes before the declarations of its name, which stand behind it.
fn link(codes: &[u8], args: &[u32], chain: &mut [u32], j: usize)
    requires { j < items_most }
    ensures { chain.new ≡ linked codes.now args.now chain.old j }
{
    let w = word_at(args, minus(j, 1));
    if both(
        is_named(base_bytes::byte_at(codes, j)),
        w < base_ceilings::ITEMS_MOST,
    ) {
        let e = word_at(chain, w);
        put(chain, j + base_ceilings::ITEMS_MOST, e);
        put(chain, w, j);
    }
}

// For each name its first declaration, and for each declaration the next of the same name, into an array that stays as it is where there are too many items.
pub fn fill_chain(codes: &[u8], args: &[u32], chain: &mut [u32])
    ensures { chain.new ≡ chain_of codes.now args.now chain.old }
{
    if base_ceilings::ITEMS_MOST < codes.len() {
        return;
    }
    clear(codes.len(), chain);
    for j in (0..codes.len()).rev() {
        link(codes, args, chain, j);
    }
}

// Where a search for the name w starts.
fn head(chain: &[u32], w: usize) -> usize
    ensures { result ≡ head_of chain.now w }
{
    if w < base_ceilings::ITEMS_MOST {
        word_at(chain, w)
    } else {
        0
    }
}

// Where a search for the name w goes on behind item d.
fn past(args: &[u32], chain: &[u32], w: usize, d: usize) -> usize
    requires { d < 18446744073709551615 }
    ensures value { result ≡ next_of args.now chain.now w d }
    ensures lower_bound { d < result }
{
    let e = base_bytes::word_on(chain, d, base_ceilings::ITEMS_MOST);
    if both(word_at(args, minus(d, 1)) == w, d < e) {
        return e;
    }
    d + 1
}

// The first item below `to` that declares the name w in the body h, of names (set 1) or labels (set 2); `to` where there is none.
pub fn find(
    codes: &[u8],
    args: &[u32],
    homes: &[u32],
    chain: &[u32],
    set: u8,
    w: usize,
    h: usize,
    to: usize,
) -> usize
    ensures { Chained codes.now args.now chain.now → set < 3 → result ≡ finding.find codes.now args.now homes.now set w h to }
{
    if w == 0 {
        return to;
    }
    // The step is as far as the chain goes, so no range counts it.
    let mut d = head(chain, w);
    while d < to {
        if declares(codes, args, homes, set, w, h, d) {
            return d;
        }
        d = past(args, chain, w, d);
    }
    to
}

// The declaration that the name w means at item m of the body h: a local's, or else a global's.
pub fn lookup(
    codes: &[u8],
    args: &[u32],
    homes: &[u32],
    chain: &[u32],
    w: usize,
    h: usize,
    m: usize,
) -> usize
    ensures { Chained codes.now args.now chain.now → result ≡ finding.lookup codes.now args.now homes.now w h m }
{
    let d = find(codes, args, homes, chain, 1, w, h, m);
    if d < m {
        return d;
    }
    find(codes, args, homes, chain, 1, w, 0, m)
}

// One more than the last item of a set below j; 0 where there is none.
pub fn after(codes: &[u8], set: u8, j: usize) -> usize
    ensures { result ≡ finding.last codes.now set j }
{
    for k in (0..j).rev() {
        if among(set, base_bytes::byte_at(codes, k)) {
            return k + 1;
        }
    }
    0
}

fn one(codes: &[u8], homes: &[u32], set: u8, h: usize, j: usize) -> usize
    ensures value { result ≡ finding.one codes.now homes.now set h j }
    ensures upper_bound { result ≤ 1 }
{
    if among(set, base_bytes::byte_at(codes, j)) {
        if word_at(homes, j) == h {
            return 1;
        }
    }
    0
}

// How many items of a set and a body there are from a place to a place.
pub fn count(codes: &[u8], homes: &[u32], set: u8, h: usize, from: usize, to: usize) -> usize
    ensures { result ≡ finding.count codes.now homes.now set h from to }
{
    let mut n: usize = 0;
    for j in from..to {
        n += one(codes, homes, set, h, j);
    }
    n
}

// The item that began the arguments which end at item j.
pub fn opener(codes: &[u8], j: usize) -> usize
    ensures { result ≡ finding.opener codes.now j }
{
    minus(after(codes, 4, j), 1)
}
