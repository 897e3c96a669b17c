// Prints the normal text of each text on standard input, and of its tables: in a room of its length and one less, and how many of the tables are still a text's when one
// of their numbers is one more.
#![tactic(auto)]

use base_refusal::Refusal;
use test_cases::put;

fn show(w: Result<usize, Refusal>, out: &[u8]) {
    match w {
        Ok(n) => put(test_cases::front(out, n)),
        Err(r) => {
            put(b"refused");
            test_cases::number(b' ', r.number as usize);
            test_cases::number(b' ', r.place);
            test_cases::number(b' ', r.length);
        }
    }
    put(b"\n");
}

fn length_of(w: Result<usize, Refusal>) -> usize {
    w.unwrap_or(0)
}

// Is the table with one more at place i a text's?
fn still(tables: &mut [u32], i: usize) -> bool {
    if tables.len() <= i {
        return false;
    }
    let v = tables[i];
    tables[i] = if v < 4294967295 { v + 1 } else { 0 };
    let r = read_genuine::is_genuine(tables);
    tables[i] = v;
    r
}

fn hurt(tables: &mut [u32]) {
    let n = base_bytes::least(table_layout::length_of(tables), 16384);
    let others = (0..n).filter(|i| still(tables, *i)).count();
    put(b"of");
    test_cases::number(b' ', n);
    put(b" numbers hurt, a text's still");
    test_cases::number(b' ', others);
    put(b"\n");
}

fn both_sides(tables: &[u32]) {
    let mut out = [0u8; 8192];
    let n = length_of(normal_entry::normal_of(tables, &mut out));
    let room = base_bytes::least(n, out.len());
    let w = normal_entry::normal_of(tables, &mut out[..room]);
    show(w, &out);
    let mut less = [b'#'; 8192];
    let x = normal_entry::normal_of(tables, &mut less[..base_bytes::minus(room, 1)]);
    show(x, &less);
}

fn each(text: &[u8]) {
    let mut out = [0u8; 8192];
    let w = normal_entry::normal(text, &mut out);
    show(w, &out);
    let mut tables = [0u32; 16384];
    if read_entry::read(text, &mut tables).is_ok() {
        both_sides(&tables);
        if table_layout::length_of(&tables) <= 90 {
            hurt(&mut tables);
        }
    }
}

fn main() {
    test_cases::for_each(&mut [0u8; 16384], |text| each(text));
}
