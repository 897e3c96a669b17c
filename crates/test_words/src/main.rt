// Reads each of the small models on standard input three hundred times; with any argument it looks up their words instead, as often. Time both to see what part of a reading the lookup is.
#![tactic(auto)]

use std::env::FillError;
use std::rt::Env;

const TIMES: usize = 300;

fn is_accepted(text: &[u8]) -> bool {
    let mut tables = [0u32; base_ceilings::TABLES_ROOM];
    read_entry::read(text, &mut tables).is_ok()
}

// Is a token of this kind, from a place to a place, a keyword? It is looked up if it is a word.
fn is_keyword(text: &[u8], kind: u8, from: usize, to: usize) -> bool {
    let is_word = base_bytes::both(base_kinds::BIT <= kind, kind <= base_kinds::NAME);
    is_word && text_spellings::keyword(base_bytes::part(text, from, to)).is_some()
}

// How many of the tokens are keywords. Zipped iterators would cost half as much again as the loop does, and more than the lookup that is to be timed.
fn keywords(text: &[u8], kinds: &[u8], starts: &[u32], ends: &[u32]) -> usize {
    let mut count: usize = 0;
    for i in 0..kinds.len() {
        let from = base_bytes::word_at(starts, i);
        let to = base_bytes::word_at(ends, i);
        if is_keyword(text, base_bytes::byte_at(kinds, i), from, to) {
            count = count.wrapping_add(1);
        }
    }
    count
}

fn read_often(text: &[u8]) -> usize {
    (0..TIMES).filter(|_| is_accepted(text)).count()
}

fn look_up_often(text: &[u8]) -> usize {
    let mut kinds = [0u8; base_ceilings::TOKENS_MOST];
    let mut starts = [0u32; base_ceilings::TOKENS_MOST];
    let mut ends = [0u32; base_ceilings::TOKENS_MOST];
    let Ok(n) = text_tokens::lex(text, &mut kinds, &mut starts, &mut ends) else {
        return 0;
    };
    let tokens = base_bytes::least(n, base_ceilings::TOKENS_MOST);
    let mut count: usize = 0;
    for _ in 0..TIMES {
        count = count.wrapping_add(keywords(text, &kinds[..tokens], &starts, &ends));
    }
    count
}

fn show(text: &[u8], words: bool) {
    if words {
        test_cases::put(b"keywords");
        test_cases::number(b' ', look_up_often(text));
    } else {
        test_cases::put(b"accepted");
        test_cases::number(b' ', read_often(text));
    }
    test_cases::put(b"\n");
}

// Is there an argument behind the program's name?
fn is_given(rt: &impl Env) -> bool {
    let mut byte = [0u8; 1];
    match rt.arg(1, &mut byte) {
        Ok(_) => true,
        Err(FillError::TooLong) => true,
        Err(FillError::NotPresent) => false,
    }
}

fn main(rt: HostRuntime) {
    let words = is_given(&rt);
    test_cases::for_each(
        &mut [0u8; base_ceilings::NORMAL_MOST],
        |text| show(text, words),
    );
}
