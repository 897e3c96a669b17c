// The least fault of a model whose grammar is right, by place and then by number (document 01, "Within a pass the smallest place wins, then the smallest number").
#![tactic(auto)]

ghost use Rattle.std.specs.Prelude.{◌≡◌, ◌+◌, ◌-◌, ◌<◌};
ghost use Rattle.rule_search.specs.Chain.{Chained};
ghost use Rattle.rule_least.specs.Faults as faults;

use base_bytes::{minus, word_at};

#[derive(Drop)]
pub enum Fault {
    None,
    // The number, and the token.
    At(u8, usize),
}

// The token at which item j is at fault by a rule.
pub fn place_by(codes: &[u8], starts: &[u32], toks: &[u32], rule: u8, j: usize) -> usize
    ensures { result ≡ faults.place_by codes.now starts.now toks.now rule j }
{
    if rule < 7 {
        return word_at(toks, j);
    }
    if rule < 15 {
        return word_at(toks, minus(j, 1));
    }
    if rule == 15 {
        return word_at(toks, word_at(starts, j));
    }
    if rule == 17 {
        return word_at(toks, j) + 2;
    }
    let o = rule_search::opener(codes, j);
    if base_bytes::byte_at(codes, o) == base_codes::SET_RUN {
        return word_at(toks, minus(o, 2));
    }
    word_at(toks, j)
}

fn sooner(p: usize, m: u8, f: Fault) -> Fault
    ensures { result ≡ faults.sooner p m f }
{
    match f {
        Fault::None => Fault::At(m, p),
        Fault::At(m2, p2) => {
            if p < p2 {
                Fault::At(m, p)
            } else if p2 < p {
                Fault::At(m2, p2)
            } else if m2 < m {
                Fault::At(m2, p2)
            } else {
                Fault::At(m, p)
            }
        }
    }
}

// The sooner of a fault and the fault of item j, if it has one.
fn joined(
    codes: &[u8],
    args: &[u32],
    homes: &[u32],
    chain: &[u32],
    starts: &[u32],
    heights: &[u32],
    toks: &[u32],
    j: usize,
    f: Fault,
) -> Fault
    requires { Chained codes.now args.now chain.now }
    ensures { result ≡ faults.joined codes.now args.now homes.now starts.now heights.now toks.now j f }
{
    let rule = rule_item::rule_of(base_bytes::byte_at(codes, j));
    let m = rule_item::bad_by(codes, args, homes, chain, starts, heights, rule, j);
    if m == 0 {
        return f;
    }
    sooner(place_by(codes, starts, toks, rule, j), m, f)
}

// The least fault of all items.
fn least_fault(
    codes: &[u8],
    args: &[u32],
    homes: &[u32],
    chain: &[u32],
    starts: &[u32],
    heights: &[u32],
    toks: &[u32],
) -> Fault
    requires { Chained codes.now args.now chain.now }
    ensures { result ≡ faults.least_of codes.now args.now homes.now starts.now heights.now toks.now }
{
    let mut best = Fault::None;
    for j in (0..codes.len()).rev() {
        best = joined(codes, args, homes, chain, starts, heights, toks, j, best);
    }
    best
}

// The least fault of a model, from its items (codes), what their tokens say (args) and their tokens (toks).
pub fn check(codes: &[u8], args: &[u32], toks: &[u32]) -> Fault
    ensures { result ≡ faults.checked codes.now args.now toks.now }
{
    let mut homes = [0u32; base_ceilings::ITEMS_MOST];
    let mut starts = [0u32; base_ceilings::ITEMS_MOST];
    let mut heights = [0u32; base_ceilings::ITEMS_MOST];
    let mut chain = [0u32; rule_search::CHAIN_ROOM];
    rule_sheets::fill_homes(codes, &mut homes);
    rule_sheets::fill_starts(codes, &mut starts);
    rule_sheets::fill_heights(codes, &starts, &mut heights);
    rule_search::fill_chain(codes, args, &mut chain);
    least_fault(codes, args, &homes, &chain, &starts, &heights, toks)
}
