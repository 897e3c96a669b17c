// The normal text of tables, and their layout: items, read from the back, become tokens by the rows of a table; tokens are written with one space where two would read otherwise, or in lines.
#![tactic(auto)]

ghost use Rattle.std.specs.Prelude.{◌≡◌, false, ◌+◌, ◌-◌, ◌≤◌, ◌<◌, ◌*◌, min, length, get_or, drop, take, ltb};
ghost use Rattle.base_ceilings.specs.Ceilings.{items_most};
ghost use Rattle.base_pens.specs.Pen.{pen, puts};
ghost use Rattle.spec_text.specs.Writing.{write};
ghost use Rattle.table_layout.specs.Access.{code_of};
ghost use Rattle.write_rows.specs.Rules.{cells};
ghost use Rattle.write_texts.specs.Turning as turning;
ghost use Rattle.base_bytes.specs.Choice.{pick};
ghost use Rattle.write_texts.specs.Turning.{row_of, unless_none, laid, operated, is_binary, turned, whole_by, marks, blanked, turn_room};
ghost use Rattle.write_texts.specs.Normal.{codes_between, tokens_between, normal_of, layout_of};
ghost use Rattle.write_texts.specs.Places.{Pushed, Flushed};

// How many rows there are (specs/Rules.antt of `write_rows`).
const ROWS: usize = 134;

// Room for what items become, at most eight symbols for each.
const ROOM: usize = 8 * base_ceilings::ITEMS_MOST + 8;

// Where the stack begins, and the tokens.
#[derive(Drop)]
struct Ends {
    stack: usize,
    tokens: usize,
}

fn wide(x: u8) -> u32
    ensures value { result ≡ x }
    ensures upper_bound { result < 256 }
{
    x as u32
}

// Number k of row r. The rows are laid out once for a text, and lent.
fn cell(rows: &[u8], r: usize, k: usize) -> u32
    requires { (rows.now ≡ cells) × (r ≤ 134) × (k < 10) }
    ensures value { result ≡ turning.cell r k }
    ensures upper_bound { result < 256 }
{
    wide(base_bytes::byte_at(rows, 10 * r + k))
}

// Is row r for the symbol s at the code c?
fn is_row(rows: &[u8], s: u32, c: u8, r: usize) -> bool
    requires { (rows.now ≡ cells) × (r < 134) }
    ensures { result ≡ turning.is_row s c r }
{
    cell(rows, r, 0) == s && cell(rows, r, 1) == wide(c)
}

// All levels share the rows of level 1.
fn shared(s: u32) -> u32
    ensures { result ≡ turning.shared s }
{
    if s <= 100 {
        return s;
    }
    if s < 113 { 101 } else { s }
}

fn row_of(rows: &[u8], s: u32, c: u8) -> usize
    requires { rows.now ≡ cells }
    ensures value { result ≡ row_of s c }
    ensures upper_bound { result ≤ 134 }
{
    let a = shared(s);
    for r in 0..ROWS {
        if is_row(rows, a, c, r) {
            return r;
        }
    }
    ROWS
}

// Puts a symbol on the stack, unless it is 0.
fn push(stack: &mut [u32], sp: usize, v: u32) -> usize
    requires { (0 < sp) × (sp ≤ length stack.old) }
    ensures { Pushed stack.old sp stack.new result (unless_none v (drop sp stack.old)) 1 }
{
    if v == 0 {
        sp
    } else {
        stack[sp - 1] = v;
        sp - 1
    }
}

// 99 stands for item i.
fn said(i: usize, v: u32) -> u32
    requires { i < items_most }
    ensures { result ≡ turning.said i v }
{
    if v == 99 { 256 + i as u32 } else { v }
}

// Puts the symbols of row r on the stack, for item i.
fn lay(rows: &[u8], stack: &mut [u32], sp: usize, r: usize, i: usize) -> usize
    requires { (rows.now ≡ cells) × (8 ≤ sp) × (sp ≤ length stack.old) × (r ≤ 134) × (i < items_most) }
    ensures { Pushed stack.old sp stack.new result (laid r i 8 (drop sp stack.old)) 8 }
{
    let mut p = sp;
    for k in (0..8).rev() {
        p = push(stack, p, said(i, cell(rows, r, 2 + k)));
    }
    p
}

// v where the test holds, else 0.
fn only(b: bool, v: u32) -> u32
    ensures { result ≡ pick b v 0 }
{
    if b { v } else { 0 }
}

// Puts the operands of the binary operator o on the stack, in parentheses if it is looser than what s asks for.
fn operate(stack: &mut [u32], sp: usize, s: u32, o: u8) -> usize
    requires { (8 ≤ sp) × (sp ≤ length stack.old) }
    ensures { Pushed stack.old sp stack.new result (operated s o (drop sp stack.old)) 8 }
{
    let l = wide(base_values::level(o));
    let loose = 100 + l < s;
    let a = push(stack, sp, only(loose, 21));
    let b = push(stack, a, 100 + l);
    let c = push(stack, b, wide(o));
    let d = push(stack, c, 101 + l);
    push(stack, d, only(loose, 22))
}

// Is an expression asked for, and the code a binary operator's?
fn is_binary(s: u32, c: u8) -> bool
    ensures { result ≡ is_binary s c }
{
    shared(s) == 101 && 146 < c && c < base_codes::NEGATE
}

fn operator(c: u8) -> u8
    ensures { result ≡ c - 146 }
{
    c.saturating_sub(146)
}

// What the symbol s becomes at item i of code c. No row has code 0.
fn step(rows: &[u8], stack: &mut [u32], sp: usize, s: u32, c: u8, i: usize) -> usize
    requires { (rows.now ≡ cells) × (8 ≤ sp) × (sp ≤ length stack.old) × (i < items_most) }
    ensures { Pushed stack.old sp stack.new result (turned s c i (drop sp stack.old)) 8 }
{
    if c == 0 {
        return sp;
    }
    if is_binary(s, c) {
        operate(stack, sp, s, operator(c))
    } else {
        lay(rows, stack, sp, row_of(rows, s, c), i)
    }
}

fn is_token(v: u32) -> bool
    ensures { result ≡ turning.is_token v }
{
    v < 70 || 255 < v
}

// Tokens on top of the stack go in front of the tokens.
fn flush(stack: &[u32], sp: usize, toks: &mut [u32], tp: usize) -> Ends
    requires { (sp ≤ length stack.now) × (length stack.now ≤ sp + tp) × (tp ≤ length toks.old) }
    ensures { Flushed stack.now sp toks.old tp toks.new result.stack result.tokens }
{
    let mut q = tp;
    for p in sp..stack.len() {
        let v = stack[p];
        if !is_token(v) {
            return Ends {
                stack: p,
                tokens: q,
            };
        }
        q -= 1;
        toks[q] = v;
    }
    Ends {
        stack: stack.len(),
        tokens: q,
    }
}

// The number at a place, 0 where there is none.
fn word_at(s: &[u32], i: usize) -> u32
    ensures { result ≡ get_or s.now i 0 }
{
    if i < s.len() { s[i] } else { 0 }
}

// The next place, as far as there is one.
fn next(n: usize, p: usize) -> usize
    requires { p ≤ n }
    ensures { result ≡ min n (p + 1) }
{
    if p < n { p + 1 } else { p }
}

// Items turned into tokens, from the back, where at first the symbol is asked for: the tokens stand from the answer on.
fn turn(rows: &[u8], codes: &[u8], symbol: u32, stack: &mut [u32], toks: &mut [u32]) -> usize
    requires { (rows.now ≡ cells) × (length codes.now ≤ items_most) × (length stack.old ≡ turn_room) × (length toks.old ≡ turn_room) }
    ensures { (result ≤ turn_room) × (drop result toks.new ≡ whole_by symbol (λ v. v) codes.now) }
{
    let mut sp = push(stack, ROOM, symbol);
    let mut tp = ROOM;
    for i in (0..codes.len()).rev() {
        let e = flush(stack, sp, toks, tp);
        let top = e.stack;
        tp = e.tokens;
        let s = word_at(stack, top);
        sp = step(rows, stack, next(ROOM, top), s, codes[i], i);
    }
    let e = flush(stack, sp, toks, tp);
    e.tokens
}

fn marked(b: bool, c: u8) -> u8
    ensures { result ≡ turning.marked b c }
{
    if c == base_codes::END {
        if b {
            return base_codes::END_CLOSED;
        }
    }
    c
}

fn after(b: bool, c: u8) -> bool
    ensures { result ≡ turning.after b c }
{
    if c == base_codes::SEND {
        return false;
    }
    if c == base_codes::RECEIVE {
        return false;
    }
    if c == base_codes::TEXT {
        return true;
    }
    if c == base_codes::RUN {
        return true;
    }
    if c == base_codes::SET_RUN { true } else { b }
}

// 0 for an item before item `from`.
fn unless_before(i: usize, from: usize, c: u8) -> u8
    ensures { result ≡ pick (ltb i from) 0 c }
{
    if i < from { 0 } else { c }
}

// The codes of the first n items, with the `end`s marked whose arguments stand in parentheses; those before item `from` are blank.
fn mark(t: &[u32], codes: &mut [u8], from: usize, n: usize)
    requires { n ≤ length codes.old }
    ensures { take n codes.new ≡ blanked from (marks false (code_of t.now) 0 n) }
{
    let mut b = false;
    for i in 0..n {
        let c = table_layout::code(t, i);
        codes[i] = unless_before(i, from, marked(b, c));
        b = after(b, c);
    }
}

// The numbers of the tokens that the items from `from` to before `to` become where the symbol is asked for: they stand from the answer on.
fn tokens_of(t: &[u32], symbol: u32, from: usize, to: usize, toks: &mut [u32]) -> usize
    requires { length toks.old ≡ turn_room }
    ensures { (result ≤ turn_room) × (drop result toks.new ≡ whole_by symbol (λ v. v) (codes_between t.now from to)) }
{
    let all = base_bytes::least(base_ceilings::ITEMS_MOST, table_layout::items(t));
    let n = base_bytes::least(to, all);
    let mut rows = [0u8; 1340];
    write_rows::lay_cells(&mut rows);
    let mut codes = [0u8; base_ceilings::ITEMS_MOST];
    mark(t, &mut codes, from, n);
    let mut stack = [0u32; ROOM];
    turn(&rows, &codes[0..n], symbol, &mut stack, toks)
}

// Writes these tokens.
pub fn write_tokens(
    t: &[u32],
    symbol: u32,
    from: usize,
    to: usize,
    out: &mut [u8],
    p: usize,
) -> usize
    ensures { pen out.new result ≡ puts (write (tokens_between t.now symbol from to)) (pen out.old p) }
{
    let mut toks = [0u32; ROOM];
    let first = tokens_of(t, symbol, from, to, &mut toks);
    write_letters::put_tokens(t, &toks[first..ROOM], out, p)
}

// Writes the normal text of the tables t at the front of out, as far as it reaches: the answer is the text's length, or one more than out's where it does not fit.
pub fn write_normal(t: &[u32], out: &mut [u8]) -> usize
    ensures { pen out.new result ≡ puts (normal_of t.now) (pen out.old 0) }
{
    write_tokens(t, 143, 0, table_layout::items(t), out, 0)
}

// Writes the layout of the tables t at the front of out, as far as it reaches: the answer is its length, or one more than out's where it does not fit.
pub fn write_layout(t: &[u32], out: &mut [u8]) -> usize
    ensures { pen out.new result ≡ puts (layout_of t.now) (pen out.old 0) }
{
    let mut toks = [0u32; ROOM];
    let first = tokens_of(t, 143, 0, table_layout::items(t), &mut toks);
    write_lines::put_lines(t, &toks[first..ROOM], out, 0)
}
