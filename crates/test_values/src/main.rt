// Prints operators, stores and levels on both sides of each boundary; crates/test_values/stdout has what is expected.
#![tactic(auto)]

use base_values::Fault;

fn number(v: i32) {
    if v < 0 {
        io::write_all(1, b"-");
    }
    io::print_decimal(1, v.unsigned_abs() as u64);
}

// The bytes of a table from one place to another.
fn word(table: &[u8], from: usize, to: usize) {
    if let Some(bytes) = table.get(from..to) {
        io::write_all(1, bytes);
    }
}

// The spelling of the operator op, in three bytes.
fn mark(op: u8) {
    let at = 3 * op as usize;
    word(
        b"?  || && |  ^  &  == != <  <= >  >= << >> +  -  *  /  %  !  ~  ",
        at,
        at + 3,
    );
}

// The spelling of the type ty, in six bytes.
fn type_name(ty: u8) {
    if ty < 38 {
        io::write_all(1, b"?     ");
    } else {
        let at = 6 * (ty as usize - 38);
        word(
            b"bit   bool  byte  mtype pid   chan  short int   ",
            at,
            at + 6,
        );
    }
}

fn answer(x: Result<i32, Fault>) {
    match x {
        Ok(v) => number(v),
        Err(f) => {
            io::write_all(1, b"fault ");
            io::print_decimal(1, u8::from(f) as u64);
        }
    }
}

fn binary(a: i32, op: u8, b: i32) {
    mark(op);
    number(a);
    io::write_all(1, b" ");
    number(b);
    io::write_all(1, b" = ");
    answer(base_values::apply(op, a, b));
    io::write_all(1, b"\n");
}

fn unary(op: u8, a: i32) {
    mark(op);
    number(a);
    io::write_all(1, b" = ");
    number(base_values::apply_unary(op, a));
    io::write_all(1, b"\n");
}

fn stored(v: i32, ty: u8) {
    type_name(ty);
    number(v);
    io::write_all(1, b" = ");
    number(base_values::cast(ty, v));
    io::write_all(1, b"\n");
}

// The ends of a type's range, and one past each.
fn ends(ty: u8, least: i32, most: i32) {
    stored(base_values::subtract(least, 1), ty);
    stored(least, ty);
    stored(most, ty);
    stored(base_values::add(most, 1), ty);
}

fn sums() {
    binary(2147483646, 14, 1);
    binary(2147483647, 14, 1);
    binary(-2147483648, 14, -1);
    binary(2147483647, 14, 2147483647);
    binary(-2147483647, 15, 1);
    binary(-2147483648, 15, 1);
    binary(0, 15, -2147483648);
    binary(-1, 15, 2147483647);
    binary(479001600, 16, 13);
    binary(-2147483648, 16, -1);
    binary(65536, 16, 65536);
    binary(46341, 16, 46341);
    binary(-46341, 16, 46341);
    unary(15, 7);
    unary(15, -2147483647);
    unary(15, -2147483648);
}

fn divisions() {
    binary(-7, 17, 2);
    binary(7, 17, -2);
    binary(-7, 17, -2);
    binary(-7, 18, 2);
    binary(7, 18, -2);
    binary(-7, 18, -2);
    binary(-2147483648, 17, -1);
    binary(-2147483648, 18, -1);
    binary(-2147483647, 17, -1);
    binary(-2147483648, 17, 1);
    binary(2147483647, 17, -1);
    binary(-2147483648, 17, -2147483648);
    binary(1, 17, 0);
    binary(1, 18, 0);
    binary(-2147483648, 17, 0);
}

fn shifts() {
    binary(1, 12, -1);
    binary(1, 12, 0);
    binary(1, 12, 31);
    binary(1, 12, 32);
    binary(-1, 12, 31);
    binary(2147483647, 12, 1);
    binary(-5, 13, -1);
    binary(-5, 13, 0);
    binary(-5, 13, 1);
    binary(-1, 13, 31);
    binary(2147483647, 13, 31);
    binary(-2147483648, 13, 31);
    binary(-5, 13, 32);
    binary(1, 12, -2147483648);
}

fn bits_and_conditions() {
    binary(12, 3, -2147483638);
    binary(-1, 4, 12);
    binary(-4, 5, 7);
    unary(20, 0);
    unary(20, 2147483647);
    unary(19, 0);
    unary(19, -2147483648);
    binary(0, 1, 0);
    binary(0, 1, -1);
    binary(0, 2, 5);
    binary(-1, 2, 5);
    binary(-1, 6, -1);
    binary(-1, 6, 2147483647);
    binary(-1, 7, -1);
    binary(-2147483648, 8, 2147483647);
    binary(3, 8, 3);
    binary(3, 9, 3);
    binary(4, 9, 3);
    binary(0, 10, -1);
    binary(3, 10, 3);
    binary(3, 11, 3);
    binary(-1, 11, 0);
}

fn stores() {
    ends(38, 0, 1);
    ends(39, 0, 1);
    ends(40, 0, 255);
    ends(41, 0, 255);
    ends(42, 0, 255);
    ends(43, 0, 255);
    ends(44, -32768, 32767);
    ends(45, -2147483648, 2147483647);
    stored(300, 40);
    stored(40000, 44);
    stored(-2147483648, 40);
    stored(-1, 38);
    stored(-7, 0);
}

fn levels() {
    for op in 0u8..21 {
        io::write_all(1, b"level ");
        io::print_decimal(1, op as u64);
        io::write_all(1, b" = ");
        io::print_decimal(1, base_values::level(op) as u64);
        io::write_all(1, b"\n");
    }
}

fn main() {
    sums();
    divisions();
    shifts();
    bits_and_conditions();
    stores();
    levels();
}
