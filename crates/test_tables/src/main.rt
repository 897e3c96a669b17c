// Prints the tables of four items with room enough, one number short and none at all, and what the accessors read from them.
#![tactic(auto)]

// The descriptor of standard output.
const STDOUT_FILENO: i32 = 1;

fn number(n: usize) {
    io::write_all(STDOUT_FILENO, b" ");
    io::print_decimal(STDOUT_FILENO, n as u64);
}

fn line(name: &[u8]) {
    io::write_all(STDOUT_FILENO, b"\n");
    io::write_all(STDOUT_FILENO, name);
}

fn all(t: &[u32]) {
    for x in t {
        number(*x as usize);
    }
}

fn spelled(t: &[u32], i: usize) {
    let n = table_layout::name_length(t, i);
    for k in 0..=n {
        number(table_layout::name_byte(t, i, k) as usize);
    }
}

fn item(t: &[u32], i: usize) {
    line(b"item");
    number(i);
    number(table_layout::code(t, i) as usize);
    number(table_layout::arg(t, i));
    number(table_layout::link(t, i));
    number(table_layout::number(t, i));
    number(table_layout::name_length(t, i));
    spelled(t, i);
}

fn built(out: &mut [u32]) {
    let text = b"ab 7 \"x\"";
    let starts: [u32; 3] = [0, 3, 5];
    let ends: [u32; 3] = [2, 4, 8];
    let codes: [u8; 4] = [70, 71, 176, 72];
    let toks: [u32; 4] = [0, 1, 0, 2];
    let links: [u32; 3] = [5, 0, 9];
    let r = table_layout::build(text, &starts, &ends, &codes, &toks, &links, out);
    line(b"built");
    number(r);
    all(out);
}

fn main() {
    let mut t = [3u32; 16];
    io::write_all(STDOUT_FILENO, b"tables");
    built(&mut t);
    line(b"length, items");
    number(table_layout::length_of(&t));
    number(table_layout::items(&t));
    for i in 0..5 {
        item(&t, i);
    }
    item(&t, 18446744073709551615);
    let mut short = [3u32; 13];
    built(&mut short);
    let mut none = [3u32; 0];
    built(&mut none);
    line(b"end\n");
}
