// Prints the layout of each text on standard input, and of its tables in a room of its length and one less; and whether the layout reads back to the same tables and the same normal text.
#![tactic(auto)]

use base_refusal::Refusal;
use test_cases::put;

fn length_of(w: Result<usize, Refusal>) -> usize {
    w.unwrap_or(0)
}

fn show(w: Result<usize, Refusal>, out: &[u8]) {
    match w {
        Ok(n) => put(test_cases::front(out, n)),
        Err(r) => {
            put(b"refused");
            test_cases::number(b' ', r.number as usize);
            test_cases::number(b' ', r.place);
            test_cases::number(b' ', r.length);
            put(b"\n");
        }
    }
}

// How many bytes the layout of tables has where just so many are lent, and what is answered where there is one less.
fn both_sides(tables: &[u32], n: usize) {
    let mut out = [b'#'; base_ceilings::TEXT_MOST];
    let room = base_bytes::least(n, out.len());
    let a = length_of(layout_entry::layout_of(tables, &mut out[..room]));
    test_cases::number(b'=', a);
    put(b"\n");
    let b = layout_entry::layout_of(tables, &mut out[..base_bytes::minus(room, 1)]);
    show(b, &out);
}

// Does the layout read back to a text with the same normal text?
fn back(text: &[u8], layout: &[u8]) {
    let mut one = [0u8; base_ceilings::NORMAL_MOST];
    let mut two = [0u8; base_ceilings::NORMAL_MOST];
    let n = length_of(normal_entry::normal(text, &mut one));
    let m = length_of(normal_entry::normal(layout, &mut two));
    if base_bytes::same(test_cases::front(&one, n), test_cases::front(&two, m)) {
        put(b"its normal text is the old one");
    } else {
        put(b"its normal text is another");
    }
    test_cases::number(b' ', m);
    put(b"\n");
}

fn each(text: &[u8]) {
    let mut out = [0u8; base_ceilings::TEXT_MOST];
    let n = length_of(layout_entry::layout(text, &mut out));
    show(layout_entry::layout(text, &mut out), &out);
    let mut tables = [0u32; base_ceilings::TABLES_ROOM];
    if read_entry::read(text, &mut tables).is_ok() {
        both_sides(&tables, n);
        back(text, test_cases::front(&out, n));
    }
}

fn main() {
    test_cases::for_each(&mut [0u8; base_ceilings::TEXT_MOST + 1], |text| each(text));
}
