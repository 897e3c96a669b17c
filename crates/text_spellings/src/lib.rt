// What the fixed spellings of marks and keywords are called: the kind of a word or a mark, if it is one.
#![tactic(auto)]

ghost use Rattle.std.specs.Prelude.{◌≡◌, [], ◌∷◌};
ghost use Rattle.base_bytes.specs.Choice.{pick};
ghost use Rattle.base_bytes.specs.Lists.{same};
ghost use Rattle.base_kinds.specs.Kinds.{marks, keywords};
ghost use Rattle.spec_text.specs.Find.{find, keyword_of};
ghost use Rattle.text_spellings.specs.First.{among, listed};

// The place in a table as the specification's `find` has it, where 0 stands for a spelling that is not there.
fn listed(k: u8) -> Option<u8>
    ensures { result ≡ listed k }
{
    if k == 0 { None } else { Some(k) }
}

// A word that may be one keyword: its kind, 0 where it is spelled otherwise.
fn only(w: &[u8], x: &[u8], k: u8) -> u8
    ensures { result ≡ pick (same w.now x.now) k 0 }
{
    if base_bytes::same(w, x) { k } else { 0 }
}

// A word that may be one of two.
fn either(w: &[u8], x: &[u8], k: u8, y: &[u8], j: u8) -> u8
    ensures { result ≡ pick (same w.now x.now) k (pick (same w.now y.now) j 0) }
{
    if base_bytes::same(w, x) {
        k
    } else {
        only(w, y, j)
    }
}

// The keywords that begin with one letter, by their length: then the word is compared byte for byte with the fixed spelling that is left, in four places with two or three.
fn from_a(w: &[u8]) -> u8
    ensures { result ≡ among 97 w.now keywords 38 }
{
    match w.len() {
        6 => {
            if base_bytes::same(w, b"active") {
                base_kinds::ACTIVE
            } else {
                either(
                    w,
                    b"assert",
                    base_kinds::ASSERT,
                    b"atomic",
                    base_kinds::ATOMIC,
                )
            }
        },
        _ => 0,
    }
}

fn from_b(w: &[u8]) -> u8
    ensures { result ≡ among 98 w.now keywords 38 }
{
    match w.len() {
        3 => only(w, b"bit", base_kinds::BIT),
        4 => either(w, b"bool", base_kinds::BOOL, b"byte", base_kinds::BYTE),
        5 => only(w, b"break", base_kinds::BREAK),
        _ => 0,
    }
}

fn from_c(w: &[u8]) -> u8
    ensures { result ≡ among 99 w.now keywords 38 }
{
    match w.len() {
        4 => only(w, b"chan", base_kinds::CHAN),
        _ => 0,
    }
}

fn from_d(w: &[u8]) -> u8
    ensures { result ≡ among 100 w.now keywords 38 }
{
    match w.len() {
        2 => only(w, b"do", base_kinds::DO),
        6 => only(w, b"d_step", base_kinds::D_STEP),
        _ => 0,
    }
}

fn from_e(w: &[u8]) -> u8
    ensures { result ≡ among 101 w.now keywords 38 }
{
    match w.len() {
        4 => either(w, b"else", base_kinds::ELSE, b"eval", base_kinds::EVAL),
        _ => 0,
    }
}

fn from_f(w: &[u8]) -> u8
    ensures { result ≡ among 102 w.now keywords 38 }
{
    match w.len() {
        2 => only(w, b"fi", base_kinds::FI),
        5 => only(w, b"false", base_kinds::FALSE),
        _ => 0,
    }
}

fn from_g(w: &[u8]) -> u8
    ensures { result ≡ among 103 w.now keywords 38 }
{
    match w.len() {
        4 => only(w, b"goto", base_kinds::GOTO),
        _ => 0,
    }
}

fn from_i(w: &[u8]) -> u8
    ensures { result ≡ among 105 w.now keywords 38 }
{
    match w.len() {
        2 => only(w, b"if", base_kinds::IF),
        3 => only(w, b"int", base_kinds::INT),
        4 => only(w, b"init", base_kinds::INIT),
        _ => 0,
    }
}

fn from_l(w: &[u8]) -> u8
    ensures { result ≡ among 108 w.now keywords 38 }
{
    match w.len() {
        3 => only(w, b"len", base_kinds::LEN),
        _ => 0,
    }
}

fn from_m(w: &[u8]) -> u8
    ensures { result ≡ among 109 w.now keywords 38 }
{
    match w.len() {
        5 => only(w, b"mtype", base_kinds::MTYPE),
        _ => 0,
    }
}

// Both have two bytes, so the second tells them apart.
fn from_o(w: &[u8]) -> u8
    ensures { result ≡ among 111 w.now keywords 38 }
{
    match base_bytes::byte_at(w, 1) {
        b'd' => only(w, b"od", base_kinds::OD),
        b'f' => only(w, b"of", base_kinds::OF),
        _ => 0,
    }
}

fn from_p(w: &[u8]) -> u8
    ensures { result ≡ among 112 w.now keywords 38 }
{
    match w.len() {
        3 => only(w, b"pid", base_kinds::PID),
        6 => only(w, b"printf", base_kinds::PRINTF),
        8 => only(w, b"proctype", base_kinds::PROCTYPE),
        _ => 0,
    }
}

fn from_r(w: &[u8]) -> u8
    ensures { result ≡ among 114 w.now keywords 38 }
{
    match w.len() {
        3 => only(w, b"run", base_kinds::RUN),
        _ => 0,
    }
}

fn from_s(w: &[u8]) -> u8
    ensures { result ≡ among 115 w.now keywords 38 }
{
    match w.len() {
        4 => only(w, b"skip", base_kinds::SKIP),
        5 => only(w, b"short", base_kinds::SHORT),
        _ => 0,
    }
}

fn from_t(w: &[u8]) -> u8
    ensures { result ≡ among 116 w.now keywords 38 }
{
    match w.len() {
        4 => only(w, b"true", base_kinds::TRUE),
        7 => either(
            w,
            b"timeout",
            base_kinds::TIMEOUT,
            b"typedef",
            base_kinds::TYPEDEF,
        ),
        _ => 0,
    }
}

fn from_u(w: &[u8]) -> u8
    ensures { result ≡ among 117 w.now keywords 38 }
{
    match w.len() {
        6 => only(w, b"unless", base_kinds::UNLESS),
        _ => 0,
    }
}

// The kind of a word that is a keyword, or 0: by its first letter, then by its length.
fn keyword_place(w: &[u8]) -> u8
    ensures { result ≡ keyword_of w.now }
{
    if w.len() < 2 {
        return 0;
    }
    match base_bytes::byte_at(w, 0) {
        b'a' => from_a(w),
        b'b' => from_b(w),
        b'c' => from_c(w),
        b'd' => from_d(w),
        b'e' => from_e(w),
        b'f' => from_f(w),
        b'g' => from_g(w),
        b'i' => from_i(w),
        b'l' => from_l(w),
        b'm' => from_m(w),
        b'o' => from_o(w),
        b'p' => from_p(w),
        b'r' => from_r(w),
        b's' => from_s(w),
        b't' => from_t(w),
        b'u' => from_u(w),
        _ => 0,
    }
}

// The kind of a word that is a keyword.
pub fn keyword(w: &[u8]) -> Option<u8>
    ensures { result ≡ listed (keyword_of w.now) }
{
    listed(keyword_place(w))
}

// The kind of a mark of two bytes, or 0.
fn place_of_two(a: u8, b: u8) -> u8
    ensures { result ≡ find (a ∷ b ∷ []) marks 1 }
{
    let both = a as u32 * 256 + b as u32;
    match both {
        0x7c7c => base_kinds::OR_ELSE, // ||
        0x2626 => base_kinds::AND_THEN, // &&
        0x3d3d => base_kinds::EQUAL, // ==
        0x213d => base_kinds::UNEQUAL, // !=
        0x3c3d => base_kinds::AT_MOST, // <=
        0x3e3d => base_kinds::AT_LEAST, // >=
        0x3c3c => base_kinds::SHIFT_LEFT, // <<
        0x3e3e => base_kinds::SHIFT_RIGHT, // >>
        0x3a3a => base_kinds::OPTION, // ::
        0x2d3e => base_kinds::ARROW, // ->
        0x2b2b => base_kinds::INCREMENT, // ++
        0x2d2d => base_kinds::DECREMENT, // --
        0x2121 => base_kinds::BANG_BANG, // !!
        0x3f3f => base_kinds::QUERY_QUERY, // ??
        _ => 0,
    }
}

// The kind of a mark of two bytes.
pub fn mark_of_two(a: u8, b: u8) -> Option<u8>
    ensures { result ≡ listed (find (a ∷ b ∷ []) marks 1) }
{
    listed(place_of_two(a, b))
}

// The kind of a mark of one byte, or 0.
fn place_of_one(a: u8) -> u8
    ensures { result ≡ find (a ∷ []) marks 1 }
{
    match a {
        b'|' => base_kinds::BIT_OR,
        b'^' => base_kinds::BIT_XOR,
        b'&' => base_kinds::BIT_AND,
        b'<' => base_kinds::LESS,
        b'>' => base_kinds::MORE,
        b'+' => base_kinds::PLUS,
        b'-' => base_kinds::MINUS,
        b'*' => base_kinds::TIMES,
        b'/' => base_kinds::OVER,
        b'%' => base_kinds::REST,
        b'!' => base_kinds::BANG,
        b'~' => base_kinds::TILDE,
        b'(' => base_kinds::OPEN_ROUND,
        b')' => base_kinds::CLOSE_ROUND,
        b'[' => base_kinds::OPEN_SQUARE,
        b']' => base_kinds::CLOSE_SQUARE,
        b'{' => base_kinds::OPEN_BRACE,
        b'}' => base_kinds::CLOSE_BRACE,
        b',' => base_kinds::COMMA,
        b';' => base_kinds::SEMICOLON,
        b':' => base_kinds::COLON,
        b'=' => base_kinds::ASSIGN,
        b'?' => base_kinds::QUERY,
        _ => 0,
    }
}

// The kind of a mark of one byte.
pub fn mark_of_one(a: u8) -> Option<u8>
    ensures { result ≡ listed (find (a ∷ []) marks 1) }
{
    listed(place_of_one(a))
}
