// Where control can stand in a model, by its items alone: phrases and their marks, the places of statements, what closes what was opened, which place follows.
#![tactic(auto)]

ghost use Rattle.std.specs.Prelude.{◌≡◌, ◌+◌, ◌≤◌, ◌<◌, length};
ghost use Rattle.base_codes.specs.Sets as sets;
ghost use Rattle.link_places.specs.Places as places;

use base_bytes::{both, either, minus, word_at};
use base_codes::{is_alone, is_lead, is_part};

// Or is it none, so a mark?
pub fn is_mark(c: u8) -> bool
    ensures { result ≡ places.is_mark c }
{
    if is_part(c) { false } else { true }
}

// The first item from i on that is no part of an expression.
pub fn mark_from(codes: &[u8], i: usize) -> usize
    ensures { result ≡ places.mark_from codes.now i }
{
    for k in i..codes.len() {
        if is_mark(codes[k]) {
            return k;
        }
    }
    i.max(codes.len())
}

// Does a statement have its place here?
pub fn is_place(codes: &[u8], p: usize) -> bool
    ensures { result ≡ places.is_place codes.now p }
{
    if codes.len() <= p {
        return false;
    }
    if is_alone(codes[p]) {
        return true;
    }
    if is_part(codes[p]) {
        both(
            is_mark(base_bytes::byte_at(codes, minus(p, 1))),
            is_lead(base_bytes::byte_at(codes, mark_from(codes, p + 1))),
        )
    } else {
        false
    }
}

fn is_stop(codes: &[u8], p: usize) -> bool
    ensures { result ≡ places.is_stop codes.now p }
{
    either(
        base_bytes::byte_at(codes, p) == base_codes::END_BODY,
        is_place(codes, p),
    )
}

// The first place, or end of a body, from item k on.
pub fn place_from(codes: &[u8], k: usize) -> usize
    ensures { result ≡ places.place_from codes.now k }
{
    for i in k..codes.len() {
        if is_stop(codes, i) {
            return i;
        }
    }
    k.max(codes.len())
}

fn is_opening(pair: u8, c: u8) -> bool
    ensures { result ≡ sets.is_opening pair c }
{
    match pair {
        0 => either(c == base_codes::IF, c == base_codes::DO),
        1 => c == base_codes::DO,
        2 => c == base_codes::OPTION,
        _ => false,
    }
}

fn is_closing(pair: u8, c: u8) -> bool
    ensures { result ≡ sets.is_closing pair c }
{
    match pair {
        0 => either(c == base_codes::FI, c == base_codes::OD),
        1 => c == base_codes::OD,
        2 => c == base_codes::END_OPTION,
        3 => c == base_codes::END_BODY,
        4 => c == base_codes::END,
        _ => false,
    }
}

fn deeper(pair: u8, c: u8, d: usize) -> usize
    requires { d < 18446744073709551615 }
    ensures value { result ≡ places.deeper pair c d }
    ensures upper_bound { result ≤ d + 1 }
{
    if is_opening(pair, c) {
        return d + 1;
    }
    if is_closing(pair, c) { minus(d, 1) } else { d }
}

// The item that closes what is open before item k.
pub fn close_of(codes: &[u8], pair: u8, k: usize) -> usize
    ensures { result ≡ places.close_of_lem codes.now pair k }
{
    let mut d: usize = 1;
    for i in k..codes.len() {
        if both(is_closing(pair, codes[i]), d == 1) {
            return i;
        }
        d = deeper(pair, codes[i], d);
    }
    k.max(codes.len())
}

fn shallower(c: u8, d: usize) -> usize
    requires { d < 18446744073709551615 }
    ensures value { result ≡ places.shallower c d }
    ensures upper_bound { result ≤ d + 1 }
{
    if is_closing(0, c) {
        return d + 1;
    }
    if is_opening(0, c) { minus(d, 1) } else { d }
}

// The item that opened the selection in which item k stands.
fn open_of(codes: &[u8], k: usize) -> usize
    requires { k < length codes.now }
    ensures { result ≡ places.open_of codes.now k 1 }
{
    let mut d: usize = 1;
    for i in (0..k).rev() {
        let c = base_bytes::byte_at(codes, i);
        if both(is_opening(0, c), d == 1) {
            return i;
        }
        d = shallower(c, d);
    }
    0
}

fn past_option(codes: &[u8], links: &[u32], k: usize) -> usize
    requires { k < length codes.now }
    ensures { result ≡ places.past_option codes.now links.now k }
{
    let o = open_of(codes, k);
    if base_bytes::byte_at(codes, o) == base_codes::DO {
        return o;
    }
    word_at(links, close_of(codes, 0, k))
}

// The place behind a statement, where item k stands behind its last.
pub fn next_from(codes: &[u8], links: &[u32], k: usize) -> usize
    ensures { result ≡ places.next_from codes.now links.now k }
{
    if codes.len() <= k {
        return k;
    }
    if codes[k] == base_codes::END_OPTION {
        return past_option(codes, links, k);
    }
    place_from(codes, k)
}

// The place behind the loop that item j is in.
pub fn past_loop(codes: &[u8], links: &[u32], j: usize) -> usize
    ensures { result ≡ places.past_loop codes.now links.now j }
{
    word_at(links, close_of(codes, 1, j))
}
