// What a text was refused for, in one sentence that a clerk can act on, two blanks in. The passes of the reader are gone through again, to the one that refused. The sentence explains the answer and is no part of it.
#![tactic(auto)]

use base_bytes::{least, part, word_at};
use parse_items::Parsed;
use rule_least::Fault;
use show_phrases::{
    put_ceiling, put_deep, put_kind, put_quoted, put_reference, put_rule, put_spoilt,
};
use text_pens::{put, put_all};

// The kinds of tokens are 1 to KINDS.
const KINDS: u8 = 72;

// Can a token of this kind stand behind those of the first k?
fn can_stand(kinds: &[u8], k: usize, kind: u8) -> bool {
    if base_ceilings::TOKENS_MOST <= k {
        return false;
    }
    let mut trial = [0u8; base_ceilings::TOKENS_MOST];
    base_bytes::copy(&mut trial, kinds, k);
    trial[k] = kind;
    let mut codes = [0u8; base_ceilings::ITEMS_MOST];
    let mut toks = [0u32; base_ceilings::ITEMS_MOST];
    let mut sizes = [0u32; base_ceilings::ITEMS_MOST];
    match parse_items::parse(part(&trial, 0, k + 1), &mut codes, &mut toks, &mut sizes) {
        Parsed::Items(_) => true,
        Parsed::Refused(_, stop) => k < stop,
    }
}

// A blank and a kind, where the test holds.
fn put_if(holds: bool, kind: u8, out: &mut [u8], p: usize) -> usize {
    if holds {
        let a = put(out, p, b' ');
        return put_kind(kind, out, a);
    }
    p
}

// What could stand behind the first k tokens.
fn put_expected(kinds: &[u8], k: usize, out: &mut [u8], p: usize) -> usize {
    let mut q = put_all(b"; expected one of", out, p);
    for kind in 1..=KINDS {
        q = put_if(can_stand(kinds, k, kind), kind, out, q);
    }
    q
}

// A token that can continue no text of the grammar, or the end.
fn put_unexpected(kinds: &[u8], k: usize, named: &[u8], out: &mut [u8], p: usize) -> usize {
    if kinds.len() <= k {
        let a = put_all(b"the text ends too soon", out, p);
        return put_expected(kinds, k, out, a);
    }
    let a = put_quoted(named, out, p);
    let b = put_all(b" cannot stand here", out, a);
    put_expected(kinds, k, out, b)
}

// The words for the fault of number x that item j has by a rule.
fn put_fault(
    codes: &[u8],
    args: &[u32],
    homes: &[u32],
    chain: &[u32],
    starts: &[u32],
    rule: u8,
    x: u8,
    j: usize,
    out: &mut [u8],
    p: usize,
) -> usize {
    if rule == 15 {
        let m = word_at(starts, j);
        let w = word_at(args, m);
        let d = rule_search::lookup(codes, args, homes, chain, w, word_at(homes, j), m);
        return put_reference(x, base_bytes::either(w == 0, d < m), out, p);
    }
    put_rule(rule, out, p)
}

// The words for the fault of number x at token k: that of the first item which has it.
fn put_broken(
    codes: &[u8],
    args: &[u32],
    toks: &[u32],
    x: u8,
    k: usize,
    out: &mut [u8],
    p: usize,
) -> usize {
    let mut homes = [0u32; base_ceilings::ITEMS_MOST];
    let mut starts = [0u32; base_ceilings::ITEMS_MOST];
    let mut heights = [0u32; base_ceilings::ITEMS_MOST];
    let mut chain = [0u32; rule_search::CHAIN_ROOM];
    rule_sheets::fill_homes(codes, &mut homes);
    rule_sheets::fill_starts(codes, &mut starts);
    rule_sheets::fill_heights(codes, &starts, &mut heights);
    rule_search::fill_chain(codes, args, &mut chain);
    for (j, c) in codes.iter().enumerate() {
        let rule = rule_item::rule_of(*c);
        if rule_item::bad_by(codes, args, &homes, &chain, &starts, &heights, rule, j) == x {
            if rule_least::place_by(codes, &starts, toks, rule, j) == k {
                return put_fault(codes, args, &homes, &chain, &starts, rule, x, j, out, p);
            }
        }
    }
    p
}

// Names, rules and ceilings of a text whose grammar is right.
fn put_by_rules(
    text: &[u8],
    starts: &[u32],
    ends: &[u32],
    codes: &[u8],
    toks: &[u32],
    named: &[u8],
    out: &mut [u8],
    p: usize,
) -> usize {
    let mut args = [0u32; base_ceilings::ITEMS_MOST];
    rule_sheets::fill_args(text, starts, ends, codes, toks, &mut args);
    match rule_least::check(codes, &args, toks) {
        Fault::At(x, k) => {
            let a = put_quoted(named, out, p);
            put_broken(codes, &args, toks, x, k, out, a)
        }
        Fault::None => put_ceiling(codes, &args, out, p),
    }
}

// Grammar, and then the rest.
fn put_by_grammar(
    text: &[u8],
    kinds: &[u8],
    starts: &[u32],
    ends: &[u32],
    named: &[u8],
    out: &mut [u8],
    p: usize,
) -> usize {
    let mut codes = [0u8; base_ceilings::ITEMS_MOST];
    let mut toks = [0u32; base_ceilings::ITEMS_MOST];
    let mut sizes = [0u32; base_ceilings::ITEMS_MOST];
    match parse_items::parse(kinds, &mut codes, &mut toks, &mut sizes) {
        Parsed::Items(n) => {
            let m = least(n, base_ceilings::ITEMS_MOST);
            put_by_rules(text, starts, ends, &codes[..m], &toks[..m], named, out, p)
        }
        Parsed::Refused(x, k) => {
            if x == 2 {
                put_deep(base_bytes::byte_at(kinds, k), out, p)
            } else {
                put_unexpected(kinds, k, named, out, p)
            }
        }
    }
}

// The words for a text that is refused with the part `named`.
fn put_words(text: &[u8], named: &[u8], out: &mut [u8], p: usize) -> usize {
    let mut kinds = [0u8; base_ceilings::TOKENS_MOST];
    let mut starts = [0u32; base_ceilings::TOKENS_MOST];
    let mut ends = [0u32; base_ceilings::TOKENS_MOST];
    match text_tokens::lex(text, &mut kinds, &mut starts, &mut ends) {
        Ok(n) => {
            let m = least(n, base_ceilings::TOKENS_MOST);
            put_by_grammar(text, &kinds[..m], &starts[..m], &ends[..m], named, out, p)
        }
        Err(r) => put_spoilt(r.number, named, out, p),
    }
}

// Writes the sentence for a text that is refused; its part begins at a place and has so many bytes.
pub fn put_sentence(text: &[u8], place: usize, len: usize, out: &mut [u8], p: usize) -> usize {
    let rest = part(text, place, text.len());
    let a = put_all(b"  ", out, p);
    let b = put_words(text, part(rest, 0, len), out, a);
    put(out, b, b'\n')
}
