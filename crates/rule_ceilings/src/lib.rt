// The ceilings that are judged last (document 01, row 6): is one passed by a model that has no fault, or does no process start?
#![tactic(auto)]

ghost use Rattle.std.specs.Prelude.{◌≡◌, ◌+◌, ◌≤◌, ◌<◌, length};
ghost use Rattle.base_ceilings.specs.Ceilings.{items_most};
ghost use Rattle.rule_ceilings.specs.Ceilings as tops;

use base_bytes::{either, minus, word_at};
use rule_search::among;
use rule_sheets::choose_size;

// How many numbers item j declares for the body h.
pub fn numbers_at(codes: &[u8], args: &[u32], homes: &[u32], h: usize, j: usize) -> usize
    ensures value { result ≡ tops.numbers_at codes.now args.now homes.now h j }
    ensures upper_bound { result < 4294967296 }
{
    if among(14, base_bytes::byte_at(codes, j)) {
        if word_at(homes, j) == h {
            if rule_item::is_array(codes, j) {
                return base_bytes::word_on(args, j, 1);
            }
            return 1;
        }
    }
    0
}

// The numbers of a body, or with 0 the global ones.
fn numbers(codes: &[u8], args: &[u32], homes: &[u32], h: usize) -> usize
    requires { length codes.now ≤ items_most }
    ensures { result ≡ tops.numbers codes.now args.now homes.now h }
{
    let mut n: usize = 0;
    for j in 0..codes.len() {
        n += numbers_at(codes, args, homes, h, j);
    }
    n
}

// How many processes the unit that item j begins starts.
fn starts_at(codes: &[u8], args: &[u32], j: usize) -> usize
    ensures value { result ≡ tops.starts_at codes.now args.now j }
    ensures upper_bound { result < 4294967296 }
{
    match base_bytes::byte_at(codes, j) {
        base_codes::ACTIVE => 1,
        base_codes::ACTIVE_MANY => word_at(args, minus(j, 2)),
        base_codes::INIT => 1,
        _ => 0,
    }
}

// How many channels item j makes at the start.
fn makes_at(codes: &[u8], args: &[u32], homes: &[u32], j: usize) -> usize
    ensures value { result ≡ tops.makes_at codes.now args.now homes.now j }
    ensures upper_bound { result < 4294967296 }
{
    if base_bytes::byte_at(codes, j) == base_codes::CHANNEL {
        let h = word_at(homes, j);
        if h == 0 {
            return 1;
        }
        return starts_at(codes, args, h - 1);
    }
    0
}

// 1 where a printf with more than 4 arguments ends.
fn wide_at(codes: &[u8], homes: &[u32], j: usize) -> usize
    ensures value { result ≡ tops.wide_at codes.now homes.now j }
    ensures upper_bound { result < 4294967296 }
{
    if base_bytes::byte_at(codes, j) == base_codes::END {
        let o = rule_search::opener(codes, j);
        if base_bytes::byte_at(codes, o) == base_codes::TEXT {
            if base_ceilings::PRINTED_MOST
                < rule_search::count(codes, homes, 5, word_at(homes, j), o, j)
            {
                return 1;
            }
        }
    }
    0
}

// 1 where a unit begins whose processes have more than 32 numbers.
fn heavy_at(codes: &[u8], args: &[u32], homes: &[u32], j: usize) -> usize
    requires { (length codes.now ≤ items_most) × (j < items_most) }
    ensures value { result ≡ tops.heavy_at codes.now args.now homes.now j }
    ensures upper_bound { result < 4294967296 }
{
    if among(15, base_bytes::byte_at(codes, j)) {
        if base_ceilings::NUMBERS_MOST < numbers(codes, args, homes, j + 1) {
            return 1;
        }
    }
    0
}

fn one(set: u8, c: u8) -> usize
    ensures value { result ≡ tops.one set c }
    ensures upper_bound { result < 4294967296 }
{
    if among(set, c) { 1 } else { 0 }
}

// What item j adds to a sum.
fn weight(codes: &[u8], args: &[u32], homes: &[u32], which: u8, j: usize) -> usize
    requires { (length codes.now ≤ items_most) × (j < items_most) }
    ensures value { result ≡ tops.weight codes.now args.now homes.now which j }
    ensures upper_bound { result < 4294967296 }
{
    match which {
        1 => one(11, base_bytes::byte_at(codes, j)),
        2 => one(12, base_bytes::byte_at(codes, j)),
        3 => one(13, base_bytes::byte_at(codes, j)),
        4 => starts_at(codes, args, j),
        5 => makes_at(codes, args, homes, j),
        6 => wide_at(codes, homes, j),
        7 => heavy_at(codes, args, homes, j),
        _ => 0,
    }
}

fn total(codes: &[u8], args: &[u32], homes: &[u32], which: u8) -> usize
    requires { length codes.now ≤ items_most }
    ensures { result ≡ tops.total codes.now args.now homes.now which }
{
    let mut n: usize = 0;
    for j in 0..codes.len() {
        n += weight(codes, args, homes, which, j);
    }
    n
}

fn any_passed(codes: &[u8], args: &[u32], homes: &[u32]) -> bool
    requires { length codes.now ≤ items_most }
    ensures { result ≡ tops.any_passed codes.now args.now homes.now }
{
    let processes = total(codes, args, homes, 4);
    either(
        either(
            either(
                base_ceilings::STATEMENTS_MOST < total(codes, args, homes, 1),
                base_ceilings::MTYPES_MOST < total(codes, args, homes, 2),
            ),
            either(
                base_ceilings::PROCTYPES_MOST < total(codes, args, homes, 3),
                base_ceilings::GLOBALS_MOST < numbers(codes, args, homes, 0),
            ),
        ),
        either(
            either(
                0 < total(codes, args, homes, 7),
                0 < total(codes, args, homes, 6),
            ),
            either(
                either(base_ceilings::PROCESSES_MOST < processes, processes == 0),
                base_ceilings::CHANNELS_MOST < total(codes, args, homes, 5),
            ),
        ),
    )
}

// Is a ceiling passed, or does no process start? Of more than 8,192 items, it is.
pub fn passed(codes: &[u8], args: &[u32]) -> bool
    ensures { result ≡ tops.passed codes.now args.now }
{
    if base_ceilings::ITEMS_MOST < codes.len() {
        return true;
    }
    let mut homes = [0u32; base_ceilings::ITEMS_MOST];
    rule_sheets::fill_homes(codes, &mut homes);
    any_passed(codes, args, &homes)
}

// What is held against a ceiling, by a number: the global numbers (0), or one of the sums of `weight`; 0 of more than 8,192 items.
pub fn amount(codes: &[u8], args: &[u32], which: u8) -> usize
    ensures { result ≡ tops.amount_of codes.now args.now which }
{
    if base_ceilings::ITEMS_MOST < codes.len() {
        return 0;
    }
    let mut homes = [0u32; base_ceilings::ITEMS_MOST];
    rule_sheets::fill_homes(codes, &mut homes);
    if which == 0 {
        numbers(codes, args, &homes, 0)
    } else {
        total(codes, args, &homes, which)
    }
}
