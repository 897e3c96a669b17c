// The records of a trail, and the form of a whole one (document 01, "Trail lines").
#![tactic(auto)]

ghost use Rattle.std.specs.Prelude.{◌≡◌, true, IfSome, [], ◌∷◌, ◌+◌, ◌≤◌, min, get_or, take, eqb};
ghost use Rattle.base_ceilings.specs.Ceilings.{number_most};
ghost use Rattle.base_bytes.specs.Choice.{both};
ghost use Rattle.text_pieces.specs.Spans.{span};
ghost use Rattle.spec_text.specs.Digits.{decimal};
ghost use Rattle.trail_form.specs.Records.{well_formed, is_not, step_of, claim_of, record_of};
ghost use Rattle.spec_trails.specs.Trails.{tab};
ghost use Rattle.trail_form.specs.Forms.{form_of, answer_of, line_of};

// A record of a trail.
#[derive(Drop)]
pub enum Record {
    // A process and its k-th offered step.
    Step(u32, u32),
    // A verdict: assert 1, fault 2, finished 3, blocked 4, open 5.
    Claim(u8),
    Malformed,
}

// A line: how many bytes it has before its line end, or before the end of the trail, and its record.
#[derive(Drop)]
pub struct Line {
    pub length: usize,
    pub record: Record,
}

// A number of one or two digits: how many they are, and what they write.
#[derive(Drop)]
struct Number {
    count: usize,
    value: u32,
}

// The form of a trail.
#[derive(Drop)]
pub enum Formed {
    // How many steps, and the claimed verdict.
    Well(usize, u8),
    // A refusal's number and line.
    Spoiled(u8, usize),
}

// The most digits of a number.
const DIGITS_MOST: usize = 5;

// The most bytes of a step's line with numbers of one or two digits, its line end among them.
const SHORT_LINE: usize = 8;

// How many bytes at the front are not this one.
fn up_to(s: &[u8], c: u8) -> usize
    ensures { result ≡ span (is_not c) s.now }
{
    for (i, b) in s.iter().enumerate() {
        if *b == c {
            return i;
        }
    }
    s.len()
}

// Are these 1 to 5 digits, with no zero in front of others?
fn is_number(x: &[u8]) -> bool
    ensures { result ≡ well_formed x.now }
{
    if text_pieces::digits(x) != x.len() {
        return false;
    }
    if x.len() < 1 {
        return false;
    }
    if DIGITS_MOST < x.len() {
        return false;
    }
    if x.len() == 1 {
        return true;
    }
    x[0] != b'0'
}

// The number that a few digits write.
fn small(x: &[u8]) -> u32
    ensures { result ≡ min (number_most + 1) (decimal x.now) }
{
    text_pieces::value(x) as u32
}

// A step, from behind `S` and its tab on.
fn step_of(x: &[u8]) -> Record
    ensures { result ≡ step_of x.now }
{
    let n = up_to(x, b'\t');
    let k = base_bytes::least(n + 1, x.len());
    if !is_number(&x[..n]) {
        return Record::Malformed;
    }
    if !is_number(&x[k..]) {
        return Record::Malformed;
    }
    Record::Step(small(&x[..n]), small(&x[k..]))
}

// A claim, from behind `V` and its tab on.
fn claim_of(x: &[u8]) -> Record
    ensures { result ≡ claim_of x.now }
{
    if base_bytes::same(x, b"assert") {
        return Record::Claim(1);
    }
    if base_bytes::same(x, b"fault") {
        return Record::Claim(2);
    }
    if base_bytes::same(x, b"finished") {
        return Record::Claim(3);
    }
    if base_bytes::same(x, b"blocked") {
        return Record::Claim(4);
    }
    if base_bytes::same(x, b"open") {
        return Record::Claim(5);
    }
    Record::Malformed
}

// Does a line begin with this letter and a tab?
fn begins(x: &[u8], letter: u8) -> bool
    ensures { result ≡ both (eqb (get_or x.now 0 0) letter) (eqb (get_or x.now 1 0) tab) }
{
    if base_bytes::byte_at(x, 0) == letter {
        return base_bytes::byte_at(x, 1) == b'\t';
    }
    false
}

// The record of a line without its line end.
pub fn record_of(x: &[u8]) -> Record
    ensures { result ≡ record_of x.now }
{
    if begins(x, b'S') {
        return step_of(&x[2..]);
    }
    if begins(x, b'V') {
        return claim_of(&x[2..]);
    }
    Record::Malformed
}

// The number of one or two digits that these two bytes begin with.
fn short_number(a: u8, b: u8) -> Option<Number>
    ensures count_bound { IfSome result (λ n. n.count ≤ 2) }
    ensures count_value { IfSome result (λ n. well_formed (take n.count (a ∷ b ∷ [])) ≡ true) }
    ensures value_value { IfSome result (λ n. n.value ≡ decimal (take n.count (a ∷ b ∷ []))) }
{
    if !text_pieces::is_digit(a) {
        return None;
    }
    let first = (a - 48) as u32;
    if !text_pieces::is_digit(b) {
        return Some(Number {
            count: 1,
            value: first,
        });
    }
    if first == 0 {
        return None;
    }
    Some(Number {
        count: 2,
        value: first * 10 + (b - 48) as u32,
    })
}

// The line at the front, whatever it is.
fn any_line(s: &[u8]) -> Line
    ensures length_value { result.length ≡ line_of s.now }
    ensures record_value { result.record ≡ record_of (take (line_of s.now) s.now) }
{
    let n = up_to(s, b'\n');
    Line {
        length: n,
        record: record_of(&s[..n]),
    }
}

// The line at the front; a step with numbers of one or two digits, which nearly every line is, in one pass over its bytes.
pub fn line_of(s: &[u8]) -> Line
    ensures length_value { result.length ≡ line_of s.now }
    ensures record_value { result.record ≡ record_of (take (line_of s.now) s.now) }
{
    if s.len() < SHORT_LINE {
        return any_line(s);
    }
    if !begins(s, b'S') {
        return any_line(s);
    }
    let Some(a) = short_number(s[2], s[3]) else {
        return any_line(s);
    };
    let m = 2 + a.count;
    if s[m] != b'\t' {
        return any_line(s);
    }
    let Some(b) = short_number(s[m + 1], s[m + 2]) else {
        return any_line(s);
    };
    let e = m + 1 + b.count;
    if s[e] != b'\n' {
        return any_line(s);
    }
    Line {
        length: e,
        record: Record::Step(a.value, b.value),
    }
}

// The form of a whole trail.
pub fn form(trail: &[u8]) -> Formed
    ensures { result ≡ answer_of (form_of trail.now) }
{
    if base_ceilings::TRAIL_MOST < trail.len() {
        return Formed::Spoiled(2, 0);
    }
    let mut at: usize = 0;
    let mut line: usize = 1;
    let mut steps: usize = 0;
    // Each line has its own length, so no range counts where the next one begins.
    while at < trail.len() {
        let here = line_of(&trail[at..]);
        let end = at + here.length;
        if end == trail.len() {
            return Formed::Spoiled(10, line);
        }
        let r = here.record;
        match r {
            Record::Malformed => {
                return Formed::Spoiled(10, line);
            }
            Record::Claim(v) => {
                if end + 1 == trail.len() {
                    return Formed::Well(steps, v);
                }
                return Formed::Spoiled(10, line + 1);
            }
            Record::Step(_, _) => {
                if steps == base_ceilings::STEPS_MOST {
                    return Formed::Spoiled(2, line);
                }
                steps += 1;
                line += 1;
                at = end + 1;
            }
        }
    }
    Formed::Spoiled(10, line)
}
