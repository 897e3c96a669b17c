// The parts of a sentence that says what a text was refused for: what is wrong with its bytes, how deep it nests, the spelling of a kind, what a rule asks, which ceiling is passed.
#![tactic(auto)]

use text_pens::{put, put_all};

// The kinds from NAMES on have no spelling of their own.
const NAMES: u8 = 70;

// Writes a part of the text between quotes.
pub fn put_quoted(named: &[u8], out: &mut [u8], p: usize) -> usize {
    let a = put(out, p, b'"');
    let b = show_printed::put_visible(named, out, a);
    put(out, b, b'"')
}

// Bytes that no token begins with, or a token past its ceiling.
pub fn put_spoilt(x: u8, named: &[u8], out: &mut [u8], p: usize) -> usize {
    if x == 1 {
        return put_stray(named, out, p);
    }
    match base_bytes::byte_at(named, 0) {
        b'"' => put_all(
            b"the string that begins here has more than 64 bytes",
            out,
            p,
        ),
        b'0'..=b'9' => put_large(named, out, p),
        _ => put_long(named, out, p),
    }
}

fn put_stray(named: &[u8], out: &mut [u8], p: usize) -> usize {
    match base_bytes::byte_at(named, 0) {
        b'"' => put_all(
            b"the string that begins here does not end, or holds a byte that cannot stand in a string",
            out,
            p,
        ),
        b'/' => put_all(b"the comment that begins here does not end", out, p),
        _ => {
            let a = put_quoted(named, out, p);
            put_all(b" cannot stand outside a string", out, a)
        }
    }
}

fn put_large(named: &[u8], out: &mut [u8], p: usize) -> usize {
    let a = put_quoted(named, out, p);
    if base_ceilings::NUMBER_MOST < text_pieces::value(named) as usize {
        return put_all(b" is larger than 2147483647", out, a);
    }
    put_all(b" is token 2049: a text has at most 2048", out, a)
}

fn put_long(named: &[u8], out: &mut [u8], p: usize) -> usize {
    if named.len() == 0 {
        return put_all(b"the text has more than 65536 bytes", out, p);
    }
    let a = put_quoted(named, out, p);
    if base_ceilings::WORD_MOST < named.len() {
        return put_all(b" is longer than 32 bytes", out, a);
    }
    put_all(b" is token 2049: a text has at most 2048", out, a)
}

// A bracket or a selection too many.
pub fn put_deep(kind: u8, out: &mut [u8], p: usize) -> usize {
    if kind < 38 {
        return put_all(b"the 33rd bracket that is open", out, p);
    }
    put_all(b"the 9th if or do that is open", out, p)
}

// The spelling of a kind, or what it is.
pub fn put_kind(kind: u8, out: &mut [u8], p: usize) -> usize {
    if kind < NAMES {
        return text_pens::put_fixed(kind, out, p);
    }
    match kind {
        NAMES => put_all(b"a name", out, p),
        71 => put_all(b"a number", out, p),
        _ => put_all(b"a string", out, p),
    }
}

// A rule that a name, a number or a word breaks, by the rule's number (specs/Rules.antt of `rule_item`).
pub fn put_rule(rule: u8, out: &mut [u8], p: usize) -> usize {
    match rule {
        1 => put_all(b" has a % that is followed by neither d nor %", out, p),
        3 => put_all(b" stands in no do loop", out, p),
        4 => put_all(
            b" must be the first word of an option, and of one option of its selection alone",
            out,
            p,
        ),
        5 => put_all(b" begins a second list of mtype names", out, p),
        6 => put_all(b" is a second one", out, p),
        7 => put_all(
            b" is the label of another statement here, or no name for a label",
            out,
            p,
        ),
        8 => put_all(
            b" is declared twice here, or no name that can be declared",
            out,
            p,
        ),
        9 => put_all(b" is no label of this body", out, p),
        10 => put_all(b" is no proctype here", out, p),
        11 => put_all(b" is no size of an array: it must be 1 to 32", out, p),
        12 => put_all(b" is no mtype name here", out, p),
        13 => put_all(b" is no capacity of a channel: it must be 1 to 8", out, p),
        14 => put_all(b" is one field too many: a message has at most 4", out, p),
        16 => put_all(
            b" has another number of arguments than are asked for",
            out,
            p,
        ),
        _ => put_all(b" is in an expression that is more than 32 high", out, p),
    }
}

// A reference: its name is not declared, is something else than is asked for, or its index is one too much or missing.
pub fn put_reference(x: u8, declared: bool, out: &mut [u8], p: usize) -> usize {
    if x == 5 {
        return put_all(
            b" is an array and has no index, or has one and is no array",
            out,
            p,
        );
    }
    if declared {
        put_all(b" is something else than can stand here", out, p)
    } else {
        put_all(b" is not declared here", out, p)
    }
}

// The ceiling that is passed, of those judged last.
pub fn put_ceiling(codes: &[u8], args: &[u32], out: &mut [u8], p: usize) -> usize {
    if base_ceilings::STATEMENTS_MOST < rule_ceilings::amount(codes, args, 1) {
        return put_all(b"the model has more than 512 statements", out, p);
    }
    if base_ceilings::MTYPES_MOST < rule_ceilings::amount(codes, args, 2) {
        return put_all(b"the model has more than 64 mtype names", out, p);
    }
    if base_ceilings::PROCTYPES_MOST < rule_ceilings::amount(codes, args, 3) {
        return put_all(b"the model has more than 16 proctypes", out, p);
    }
    if base_ceilings::GLOBALS_MOST < rule_ceilings::amount(codes, args, 0) {
        return put_all(b"the global variables have more than 64 numbers", out, p);
    }
    put_ceiling_of_processes(codes, args, out, p)
}

fn put_ceiling_of_processes(codes: &[u8], args: &[u32], out: &mut [u8], p: usize) -> usize {
    if 0 < rule_ceilings::amount(codes, args, 7) {
        return put_all(
            b"the variables of a process have more than 32 numbers",
            out,
            p,
        );
    }
    if 0 < rule_ceilings::amount(codes, args, 6) {
        return put_all(b"a printf has more than 4 arguments", out, p);
    }
    if rule_ceilings::amount(codes, args, 4) == 0 {
        return put_all(
            b"no process starts: the model has no init and no active proctype",
            out,
            p,
        );
    }
    if base_ceilings::PROCESSES_MOST < rule_ceilings::amount(codes, args, 4) {
        return put_all(b"more than 16 processes start", out, p);
    }
    if base_ceilings::CHANNELS_MOST < rule_ceilings::amount(codes, args, 5) {
        return put_all(b"more than 16 channels are made at the start", out, p);
    }
    put_all(b"the normal text has more than 8192 bytes", out, p)
}
