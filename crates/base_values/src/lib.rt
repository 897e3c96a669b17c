// Values of a model: signed 32-bit numbers, the operators on them by number, and casting for stores.
// No function asks anything of its caller. specs/ says what each means.
#![tactic(auto)]

ghost use Rattle.std.specs.Prelude.{◌≡◌, ◌+ℤ◌, ◌-ℤ◌, ◌*ℤ◌};
ghost use Rattle.base_values.specs.Bits.{low, signed, wrap32};
ghost use Rattle.base_values.specs.Operators.{level_of, divide_of, remainder_of, shift_left_of, shift_right_of, apply_of, unary_of};
ghost use Rattle.base_values.specs.Types.{width_of, cast_of};
ghost use Rattle.base_values.specs.Faults.{fault_number};

// Why a step fails.
#[derive(Clone, Copy)]
pub enum Fault {
    Divide,
    Shift,
    Index,
    Channel,
    Fields,
}

impl From<Fault> for u8 {
    ghost from_gives = { λ f n. n ≡ fault_number f };

    fn from(f: Fault) -> u8 {
        match f {
            Fault::Divide => 1,
            Fault::Shift => 2,
            Fault::Index => 3,
            Fault::Channel => 4,
            Fault::Fields => 5,
        }
    }
}

// Wrapping addition and subtraction are supplied; a product is worked out in 64 bits, and its low 32 are read back.

pub fn add(a: i32, b: i32) -> i32
    ensures { result ≡ wrap32 (a +ℤ b) }
{
    a.wrapping_add(b)
}

pub fn subtract(a: i32, b: i32) -> i32
    ensures { result ≡ wrap32 (a -ℤ b) }
{
    a.wrapping_sub(b)
}

// The low 32 bits of s.
fn bits_of(s: i64) -> u32
    ensures { result ≡ low 32 s }
{
    (s & 0xffff_ffff) as u32
}

// 32 bits, read as a signed number.
fn value_of(u: u32) -> i32
    ensures { result ≡ signed 32 u }
{
    if u < 0x8000_0000 {
        u as i32
    } else {
        (u as i64 - 0x1_0000_0000) as i32
    }
}

pub fn multiply(a: i32, b: i32) -> i32
    ensures { result ≡ wrap32 (a *ℤ b) }
{
    value_of(bits_of(a as i64 * b as i64))
}

// By -1 it is a case of its own: the quotient has no place in 32 bits.
const LEAST: i32 = -2147483648;

pub fn divide(a: i32, b: i32) -> Result<i32, Fault>
    ensures { result ≡ divide_of a b }
{
    if b == 0 {
        return Err(Fault::Divide);
    }
    if (a == LEAST) & (b == -1) {
        return Ok(LEAST);
    }
    Ok(a / b)
}

pub fn remainder(a: i32, b: i32) -> Result<i32, Fault>
    ensures { result ≡ remainder_of a b }
{
    if b == 0 {
        return Err(Fault::Divide);
    }
    if (a == LEAST) & (b == -1) {
        return Ok(0);
    }
    Ok(a % b)
}

// A shift by more is a fault, as is one by less than 0.
const MOST_SHIFT: i32 = 31;

pub fn shift_left(a: i32, b: i32) -> Result<i32, Fault>
    ensures { result ≡ shift_left_of a b }
{
    if (b < 0) | (MOST_SHIFT < b) {
        return Err(Fault::Shift);
    }
    Ok(a << b)
}

pub fn shift_right(a: i32, b: i32) -> Result<i32, Fault>
    ensures { result ≡ shift_right_of a b }
{
    if (b < 0) | (MOST_SHIFT < b) {
        return Err(Fault::Shift);
    }
    Ok(a >> b)
}

// How tightly the binary operator op binds, 1 the loosest; 0 where op is none.
pub fn level(op: u8) -> u8
    ensures { result ≡ level_of op }
{
    match op {
        1 => 1,
        2 => 2,
        3 => 3,
        4 => 4,
        5 => 5,
        6..=7 => 6,
        8..=11 => 7,
        12..=13 => 8,
        14..=15 => 9,
        16..=18 => 10,
        _ => 0,
    }
}

// The binary operator op on two values; 1 to 18 are || && | ^ & == != < <= > >= << >> + - * / %.
pub fn apply(op: u8, a: i32, b: i32) -> Result<i32, Fault>
    ensures { result ≡ apply_of op a b }
{
    match op {
        1 => Ok(((a != 0) | (b != 0)) as i32),
        2 => Ok(((a != 0) & (b != 0)) as i32),
        3 => Ok(a | b),
        4 => Ok(a ^ b),
        5 => Ok(a & b),
        6 => Ok((a == b) as i32),
        7 => Ok((a != b) as i32),
        8 => Ok((a < b) as i32),
        9 => Ok((a <= b) as i32),
        10 => Ok((b < a) as i32),
        11 => Ok((b <= a) as i32),
        12 => shift_left(a, b),
        13 => shift_right(a, b),
        14 => Ok(add(a, b)),
        15 => Ok(subtract(a, b)),
        16 => Ok(multiply(a, b)),
        17 => divide(a, b),
        18 => remainder(a, b),
        _ => Ok(a),
    }
}

// The unary operator op on a value: 15 is minus, 19 ! and 20 ~.
pub fn apply_unary(op: u8, a: i32) -> i32
    ensures { result ≡ unary_of op a }
{
    match op {
        15 => subtract(0, a),
        19 => (a == 0) as i32,
        20 => !a,
        _ => a,
    }
}

// How many bits a variable of the type keeps; 38 to 45 are bit bool byte mtype pid chan short int.
pub fn width(ty: u8) -> u32
    ensures { result ≡ width_of ty }
{
    match ty {
        38..=39 => 1,
        40..=43 => 8,
        44 => 16,
        _ => 32,
    }
}

// The value that a variable of the type holds once v is stored in it.
pub fn cast(ty: u8, v: i32) -> i32
    ensures { result ≡ cast_of ty v }
{
    let w = width(ty);
    if 16 < w {
        return v;
    }
    let u = v & ((1i32 << w as i32) - 1);
    if w < 16 {
        return u;
    }
    if u < 0x8000 { u } else { u - 0x1_0000 }
}
