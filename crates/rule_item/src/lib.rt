// The rules on names and numbers, each for one item of a model: the number of the fault that the item has by it, 0 for none (document 01, rows 2, 4 and 5).
#![tactic(auto)]

ghost use Rattle.std.specs.Prelude.{◌≡◌, ◌+◌, ◌-◌, ◌≤◌, ◌<◌};
ghost use Rattle.base_codes.specs.Sets as sets;
ghost use Rattle.rule_search.specs.Chain.{Chained};
ghost use Rattle.rule_item.specs.Rules as rules;

use base_bytes::{both, either, minus, word_at};
use base_codes::within;
use rule_search::{after, among, count, find, lookup, opener};
use rule_sheets::{byte_on, choose};

// How far a field stands behind its channel, two items for each, where it is one too many.
const TOO_MANY_FIELDS: usize = 2 * base_ceilings::FIELDS_MOST + 1;

// Is this variable an array?
pub fn is_array(codes: &[u8], d: usize) -> bool
    ensures { result ≡ rules.is_array codes.now d }
{
    both(
        byte_on(codes, d, 1) == base_codes::NUMBER,
        byte_on(codes, d, 2) == base_codes::SIZE,
    )
}

fn is_chan(codes: &[u8], d: usize) -> bool
    ensures { result ≡ rules.is_chan codes.now d }
{
    base_bytes::byte_at(codes, minus(after(codes, 3, d), 2)) == base_codes::CHAN
}

// What a reference is for, by the item behind it.
fn role_of(c: u8) -> u8
    ensures { result ≡ rules.role_of c }
{
    choose(
        either(
            c == base_codes::LEN,
            within(base_codes::SEND, base_codes::RECEIVE, c),
        ),
        1,
        choose(
            either(
                c == base_codes::TARGET,
                within(base_codes::INCREMENT, base_codes::DECREMENT, c),
            ),
            2,
            choose(c == base_codes::INTO, 3, 0),
        ),
    )
}

// A name that has no index, where it may stand at all.
fn bad_plain(may: bool, indexed: bool) -> u8
    ensures { result ≡ rules.bad_plain may indexed }
{
    choose(may, choose(indexed, 5, 0), 4)
}

fn bad_variable(codes: &[u8], d: usize, role: u8, indexed: bool) -> u8
    ensures { result ≡ rules.bad_variable codes.now d role indexed }
{
    let a = is_array(codes, d);
    let x = choose(indexed, choose(a, 0, 5), choose(a, 5, 0));
    choose(role == 1, choose(is_chan(codes, d), x, 4), x)
}

// A reference by its name's item m, in body h, for a role.
fn bad_use(
    codes: &[u8],
    args: &[u32],
    homes: &[u32],
    chain: &[u32],
    m: usize,
    h: usize,
    role: u8,
    indexed: bool,
) -> u8
    ensures { Chained codes.now args.now chain.now → result ≡ rules.bad_use codes.now args.now homes.now m h role indexed }
{
    let w = word_at(args, m);
    if w == 0 {
        return bad_plain(role == 0, indexed);
    }
    let d = lookup(codes, args, homes, chain, w, h, m);
    let c = base_bytes::byte_at(codes, d);
    if c == base_codes::MESSAGE {
        return bad_plain(either(role == 0, role == 3), indexed);
    }
    if among(14, c) {
        return bad_variable(codes, d, role, indexed);
    }
    4
}

fn bad_ref(codes: &[u8], args: &[u32], homes: &[u32], chain: &[u32], starts: &[u32], j: usize) -> u8
    ensures { Chained codes.now args.now chain.now → result ≡ rules.bad_ref codes.now args.now homes.now starts.now j }
{
    bad_use(
        codes,
        args,
        homes,
        chain,
        word_at(starts, j),
        word_at(homes, j),
        role_of(byte_on(codes, j, 1)),
        base_bytes::byte_at(codes, j) == base_codes::INDEX,
    )
}

fn bad_twice(codes: &[u8], args: &[u32], homes: &[u32], chain: &[u32], set: u8, j: usize) -> u8
    ensures { Chained codes.now args.now chain.now → set < 3 → result ≡ rules.bad_twice codes.now args.now homes.now set j }
{
    let w = word_at(args, minus(j, 1));
    let d = find(codes, args, homes, chain, set, w, word_at(homes, j), j);
    choose(either(w == 0, d < j), 4, 0)
}

fn bad_named(codes: &[u8], args: &[u32], homes: &[u32], chain: &[u32], j: usize) -> u8
    ensures { Chained codes.now args.now chain.now → result ≡ rules.bad_named codes.now args.now homes.now j }
{
    let m = minus(j, 1);
    let d = lookup(
        codes,
        args,
        homes,
        chain,
        word_at(args, m),
        word_at(homes, j),
        m,
    );
    choose(base_bytes::byte_at(codes, d) == base_codes::MESSAGE, 0, 4)
}

fn bad_goto(codes: &[u8], args: &[u32], homes: &[u32], chain: &[u32], j: usize) -> u8
    ensures { Chained codes.now args.now chain.now → result ≡ rules.bad_goto codes.now args.now homes.now j }
{
    let w = word_at(args, minus(j, 1));
    let n = codes.len();
    choose(
        find(codes, args, homes, chain, 2, w, word_at(homes, j), n) < n,
        0,
        4,
    )
}

// The first global declaration of the name of item m, in the whole text.
pub fn global(codes: &[u8], args: &[u32], homes: &[u32], chain: &[u32], m: usize) -> usize
    ensures { Chained codes.now args.now chain.now → result ≡ rules.global_of codes.now args.now homes.now m }
{
    find(
        codes,
        args,
        homes,
        chain,
        1,
        word_at(args, m),
        0,
        codes.len(),
    )
}

fn bad_run(codes: &[u8], args: &[u32], homes: &[u32], chain: &[u32], j: usize) -> u8
    ensures { Chained codes.now args.now chain.now → result ≡ rules.bad_run codes.now args.now homes.now j }
{
    let m = minus(j, 1);
    let l = find(
        codes,
        args,
        homes,
        chain,
        1,
        word_at(args, m),
        word_at(homes, j),
        m,
    );
    let g = global(codes, args, homes, chain, m);
    choose(
        l < m,
        4,
        choose(among(13, base_bytes::byte_at(codes, g)), 0, 4),
    )
}

// The body of the unit that item g begins.
fn body_of(codes: &[u8], g: usize) -> usize
    ensures { result ≡ rules.body_of codes.now g }
{
    if g < codes.len() { g + 1 } else { 0 }
}

fn bad_passing(codes: &[u8], args: &[u32], homes: &[u32], chain: &[u32], o: usize, k: usize) -> u8
    ensures { Chained codes.now args.now chain.now → result ≡ rules.bad_passing codes.now args.now homes.now o k }
{
    let g = global(codes, args, homes, chain, minus(o, 1));
    let p = count(codes, homes, 6, body_of(codes, g), 0, codes.len());
    choose(
        bad_run(codes, args, homes, chain, o) == 0,
        choose(k == p, 0, 5),
        0,
    )
}

// k arguments for what item o began.
fn bad_count(codes: &[u8], args: &[u32], homes: &[u32], chain: &[u32], o: usize, k: usize) -> u8
    ensures { Chained codes.now args.now chain.now → result ≡ rules.bad_count codes.now args.now homes.now o k }
{
    match base_bytes::byte_at(codes, o) {
        base_codes::TEXT => choose(k == word_at(args, o) / 2, 0, 5),
        base_codes::SEND => choose(base_ceilings::FIELDS_MOST < k, 5, 0),
        base_codes::RECEIVE => choose(base_ceilings::FIELDS_MOST < k, 5, 0),
        base_codes::RUN => bad_passing(codes, args, homes, chain, o, k),
        base_codes::SET_RUN => bad_passing(codes, args, homes, chain, o, k),
        _ => 0,
    }
}

fn bad_end(codes: &[u8], args: &[u32], homes: &[u32], chain: &[u32], j: usize) -> u8
    ensures { Chained codes.now args.now chain.now → result ≡ rules.bad_end codes.now args.now homes.now j }
{
    let o = opener(codes, j);
    let k = count(codes, homes, 5, word_at(homes, j), o, j);
    bad_count(codes, args, homes, chain, o, k)
}

fn bad_break(codes: &[u8], homes: &[u32], j: usize) -> u8
    ensures { result ≡ rules.bad_break codes.now homes.now j }
{
    let h = word_at(homes, j);
    choose(
        count(codes, homes, 8, h, 0, j) < count(codes, homes, 7, h, 0, j),
        0,
        5,
    )
}

// How deep item k is for one that stands behind it: 1 in the same selection, 0 outside it.
fn depth_on(codes: &[u8], k: usize, d: usize) -> usize
    requires { d < 18446744073709551615 }
    ensures value { result ≡ rules.depth_on codes.now k d }
    ensures upper_bound { result ≤ d + 1 }
{
    let c = base_bytes::byte_at(codes, k);
    if d == 0 {
        return 0;
    }
    if either(c == base_codes::FI, c == base_codes::OD) {
        return d + 1;
    }
    if either(c == base_codes::IF, c == base_codes::DO) {
        return d - 1;
    }
    d
}

fn twin_at(codes: &[u8], k: usize, d: usize) -> bool
    ensures { result ≡ rules.twin_at codes.now k d }
{
    both(
        d == 1,
        both(
            base_bytes::byte_at(codes, k) == base_codes::OPTION,
            byte_on(codes, k, 1) == base_codes::ELSE,
        ),
    )
}

// Has the selection of the option at item j an earlier option that begins with `else`?
fn twin(codes: &[u8], j: usize) -> bool
    requires { j < 18446744073709551615 }
    ensures { result ≡ rules.twin codes.now j 1 }
{
    let mut d: usize = 1;
    for k in (0..j).rev() {
        if twin_at(codes, k, d) {
            return true;
        }
        d = depth_on(codes, k, d);
    }
    false
}

fn bad_else(codes: &[u8], j: usize) -> u8
    ensures { result ≡ rules.bad_else codes.now j }
{
    let i = minus(j, 1);
    choose(
        base_bytes::byte_at(codes, i) == base_codes::OPTION,
        choose(twin(codes, i), 5, 0),
        5,
    )
}

fn bad_second(codes: &[u8], homes: &[u32], set: u8, j: usize) -> u8
    ensures { result ≡ rules.bad_second codes.now homes.now set j }
{
    choose(0 < count(codes, homes, set, 0, 0, j), 5, 0)
}

fn bad_size(args: &[u32], most: usize, j: usize) -> u8
    ensures { result ≡ rules.bad_size args.now most j }
{
    let v = word_at(args, minus(j, 1));
    choose(both(0 < v, v <= most), 0, 5)
}

fn bad_field(codes: &[u8], j: usize) -> u8
    ensures { result ≡ rules.bad_field codes.now j }
{
    choose(minus(j, after(codes, 16, j)) == TOO_MANY_FIELDS, 5, 0)
}

fn bad_format(args: &[u32], j: usize) -> u8
    ensures { result ≡ rules.bad_format args.now j }
{
    choose(word_at(args, j) % 2 == 1, 5, 0)
}

fn bad_height(heights: &[u32], j: usize) -> u8
    ensures { result ≡ rules.bad_height heights.now j }
{
    choose(
        base_ceilings::HEIGHT_MOST < word_at(heights, minus(j, 1)),
        2,
        0,
    )
}

// Which rule an item has; 0 where it has none. Sixteen items to a line.
pub fn rule_of(c: u8) -> u8
    ensures { result ≡ sets.rule_of c }
{
    base_bytes::byte_at(
        b"\
\x00\x00\x00\x00\x00\x00\x00\x00\x00\x00\x00\x00\x00\x00\x00\x00\
\x00\x00\x00\x00\x00\x00\x00\x00\x00\x00\x00\x00\x00\x00\x00\x00\
\x00\x00\x00\x00\x00\x00\x00\x00\x00\x00\x00\x00\x00\x00\x00\x00\
\x00\x00\x00\x00\x00\x00\x00\x00\x00\x00\x00\x00\x00\x00\x00\x00\
\x00\x00\x00\x00\x00\x00\x00\x00\x01\x00\x00\x00\x00\x00\x00\x00\
\x00\x00\x00\x00\x00\x00\x00\x00\x00\x00\x00\x00\x00\x00\x00\x00\
\x00\x00\x00\x00\x00\x00\x00\x00\x00\x00\x00\x00\x00\x00\x00\x00\
\x00\x00\x00\x00\x00\x00\x00\x00\x00\x00\x00\x00\x00\x00\x00\x00\
\x00\x00\x00\x00\x00\x00\x00\x00\x00\x00\x00\x00\x00\x00\x00\x00\
\x00\x00\x00\x00\x00\x00\x00\x00\x00\x00\x00\x00\x00\x00\x00\x00\
\x00\x00\x00\x00\x00\x00\x00\x00\x00\x00\x00\x00\x00\x00\x00\x00\
\x0f\x0f\x00\x00\x00\x00\x00\x02\x02\x11\x00\x10\x07\x02\x02\x02\
\x02\x02\x02\x02\x11\x00\x09\x03\x00\x04\x0a\x0a\x00\x00\x00\x00\
\x00\x00\x00\x00\x08\x0b\x00\x00\x0c\x0d\x0e\x05\x08\x00\x08\x08\
\x08\x08\x06\x00\x00\x00\x00\x00\x00\x00\x00\x00\x00\x00\x00\x00\
\x00\x00\x00\x00\x00\x00\x00\x00\x00\x00\x00\x00\x00\x00\x00\x00",
        c as usize,
    )
}

// The number of the fault of item j by a rule, 0 where there is none.
pub fn bad_by(
    codes: &[u8],
    args: &[u32],
    homes: &[u32],
    chain: &[u32],
    starts: &[u32],
    heights: &[u32],
    rule: u8,
    j: usize,
) -> u8
    ensures { Chained codes.now args.now chain.now → result ≡ rules.bad_by codes.now args.now homes.now starts.now heights.now rule j }
{
    match rule {
        1 => bad_format(args, j),
        2 => bad_height(heights, j),
        3 => bad_break(codes, homes, j),
        4 => bad_else(codes, j),
        5 => bad_second(codes, homes, 9, j),
        6 => bad_second(codes, homes, 10, j),
        7 => bad_twice(codes, args, homes, chain, 2, j),
        8 => bad_twice(codes, args, homes, chain, 1, j),
        9 => bad_goto(codes, args, homes, chain, j),
        10 => bad_run(codes, args, homes, chain, j),
        11 => bad_size(args, base_ceilings::ARRAY_MOST, j),
        12 => bad_named(codes, args, homes, chain, j),
        13 => bad_size(args, base_ceilings::CAPACITY_MOST, j),
        14 => bad_field(codes, j),
        15 => bad_ref(codes, args, homes, chain, starts, j),
        16 => bad_end(codes, args, homes, chain, j),
        17 => bad_height(heights, j),
        _ => 0,
    }
}
