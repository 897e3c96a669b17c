// One piece at the front of a text: what is skipped, a token, or a refusal (document 01, "Bytes", "Keywords", "Marks").
#![tactic(auto)]

ghost use Rattle.std.specs.Prelude.{◌≡◌, false, ◌+◌, ◌-◌, ◌≤◌, min, length, eqb};
ghost use Rattle.base_ceilings.specs.Ceilings.{number_most};
ghost use Rattle.spec_text.specs.Bytes.{is_blank, is_letter, is_digit, is_plain, is_escape, slash, star};
ghost use Rattle.base_bytes.specs.Choice.{both};
ghost use Rattle.text_pieces.specs.Spans.{in_run, span, closing, move_of, quoted};
ghost use Rattle.spec_text.specs.Digits.{decimal};
ghost use Rattle.text_pieces.specs.Pieces.{word_of, number_of, string_of, comment_of, mark_of, piece_of};

// What stands at the front of a text, with its length.
#[derive(Drop)]
pub enum Piece {
    // A blank or a comment.
    Skip(usize),
    // A token, by its kind.
    Take(u8, usize),
    // A refusal, by its number.
    Stop(u8, usize),
}

// How a string ends.
#[derive(Drop)]
pub enum Quoted {
    Closed(usize),
    Spoiled(usize),
    Unclosed,
}

// What a byte of a string does.
#[derive(Drop)]
pub enum Move {
    // It belongs to the string; is the next one wanted by a backslash?
    On(bool),
    End,
    Bad,
}

// The most that a number may be.
const NUMBER_MOST: u64 = base_ceilings::NUMBER_MOST as u64;

fn is_blank(b: u8) -> bool
    ensures { result ≡ is_blank b }
{
    matches!(b, b' ' | b'\t' | b'\r' | b'\n')
}

pub fn is_digit(b: u8) -> bool
    ensures { result ≡ is_digit b }
{
    b.is_ascii_digit()
}

pub fn is_letter(b: u8) -> bool
    ensures { result ≡ is_letter b }
{
    matches!(b, b'A'..=b'Z' | b'_' | b'a'..=b'z')
}

fn is_plain(b: u8) -> bool
    ensures { result ≡ is_plain b }
{
    matches!(b, 32..=126 | 128..=255)
}

fn is_escape(b: u8) -> bool
    ensures { result ≡ is_escape b }
{
    matches!(b, b'n' | b't' | b'"' | b'\\')
}

// A byte of a number, or where letters count too of a word.
fn is_run(b: u8, letters: bool) -> bool
    ensures { result ≡ in_run letters b }
{
    is_digit(b) || letters && is_letter(b)
}

// How many bytes at the front are of a number, or of a word.
fn run(s: &[u8], letters: bool) -> usize
    ensures { result ≡ span (in_run letters) s.now }
{
    for (i, b) in s.iter().enumerate() {
        if !is_run(*b, letters) {
            return i;
        }
    }
    s.len()
}

// How many digits stand at the front.
pub fn digits(s: &[u8]) -> usize
    ensures { result ≡ span is_digit s.now }
{
    run(s, false)
}

fn digit(b: u8) -> u64
    ensures { result ≡ b - 48 }
{
    b.saturating_sub(b'0') as u64
}

// The number that these digits write; every number past the most counts as one past it.
pub fn value(s: &[u8]) -> u64
    ensures { result ≡ min (number_most + 1) (decimal s.now) }
{
    let mut v: u64 = 0;
    for b in s {
        v = (NUMBER_MOST + 1).min(v * 10 + digit(*b));
    }
    v
}

// A word of n bytes at the front.
fn word(s: &[u8], n: usize) -> Piece
    requires { n ≤ length s.now }
    ensures { result ≡ word_of s.now n }
{
    if base_ceilings::WORD_MOST < n {
        return Piece::Stop(2, n);
    }
    let kind = text_spellings::keyword(&s[..n]).unwrap_or(base_kinds::NAME);
    Piece::Take(kind, n)
}

// A number of n digits at the front.
fn number(s: &[u8], n: usize) -> Piece
    requires { n ≤ length s.now }
    ensures { result ≡ number_of s.now n }
{
    let v = value(&s[..n]);
    if NUMBER_MOST < v {
        return Piece::Stop(2, n);
    }
    Piece::Take(base_kinds::NUMBER, n)
}

fn move_on(escaped: bool, b: u8) -> Move
    ensures { result ≡ move_of escaped b }
{
    if escaped {
        if is_escape(b) {
            return Move::On(false);
        }
        return Move::Bad;
    }
    if b == b'"' {
        return Move::End;
    }
    if b == b'\\' {
        return Move::On(true);
    }
    if is_plain(b) {
        return Move::On(false);
    }
    Move::Bad
}

// A string, from behind its opening quote on.
fn quoted_from(s: &[u8]) -> Quoted
    ensures { result ≡ quoted false s.now }
{
    let mut escaped = false;
    for (i, b) in s.iter().enumerate() {
        match move_on(escaped, *b) {
            Move::On(next) => {
                escaped = next;
            }
            Move::End => {
                return Quoted::Closed(i + 1);
            }
            Move::Bad => {
                return Quoted::Spoiled(i + 1);
            }
        }
    }
    Quoted::Unclosed
}

fn string(s: &[u8]) -> Piece
    ensures { result ≡ string_of (quoted false s.now) (length s.now) }
{
    match quoted_from(s) {
        Quoted::Closed(n) => {
            if base_ceilings::STRING_MOST + 1 < n {
                return Piece::Stop(2, n + 1);
            }
            Piece::Take(base_kinds::STRING, n + 1)
        }
        Quoted::Spoiled(n) => Piece::Stop(1, n + 1),
        Quoted::Unclosed => Piece::Stop(1, s.len() + 1),
    }
}

// Is it this byte, behind that one, that closes a comment?
fn closes(before: u8, b: u8) -> bool
    ensures { result ≡ both (eqb before star) (eqb b slash) }
{
    before == b'*' && b == b'/'
}

// Where a comment ends, from behind its opening `/*` on; it may never.
fn closing_in(s: &[u8]) -> Option<usize>
    ensures { result ≡ closing false s.now }
{
    let mut before: u8 = 0;
    for (i, b) in s.iter().enumerate() {
        if closes(before, *b) {
            return Some(i + 1);
        }
        before = *b;
    }
    None
}

fn comment(s: &[u8]) -> Piece
    ensures { result ≡ comment_of (closing false s.now) (length s.now) }
{
    match closing_in(s) {
        Some(n) => Piece::Skip(n + 2),
        None => Piece::Stop(1, s.len() + 2),
    }
}

// A mark, the longest there is.
fn mark(a: u8, b: u8) -> Piece
    ensures { result ≡ mark_of a b }
{
    if let Some(kind) = text_spellings::mark_of_two(a, b) {
        return Piece::Take(kind, 2);
    }
    match text_spellings::mark_of_one(a) {
        Some(kind) => Piece::Take(kind, 1),
        None => Piece::Stop(1, 1),
    }
}

// Do these two bytes open a comment?
fn opens(a: u8, b: u8) -> bool
    ensures { result ≡ both (eqb a slash) (eqb b star) }
{
    a == b'/' && b == b'*'
}

// The piece at the front of a text; of an empty one, nothing to skip.
pub fn front(s: &[u8]) -> Piece
    ensures { result ≡ piece_of s.now }
{
    if s.len() == 0 {
        return Piece::Skip(0);
    }
    let b = s[0];
    if is_blank(b) {
        return Piece::Skip(1);
    }
    if is_letter(b) {
        return word(s, run(s, true));
    }
    if is_digit(b) {
        return number(s, digits(s));
    }
    if b == b'"' {
        return string(&s[1..]);
    }
    let next = base_bytes::byte_at(s, 1);
    if opens(b, next) {
        return comment(&s[2..]);
    }
    mark(b, next)
}
