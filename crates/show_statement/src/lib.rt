// The text of one statement, and where it begins in the normal text, from the tables of a model: its items are written by the writer of normal texts, asked for one statement.
#![tactic(auto)]

ghost use Rattle.std.specs.Prelude.{◌≡◌};
ghost use Rattle.base_pens.specs.Pen.{pen, puts};
ghost use Rattle.show_statement.specs.Statements.{ends_leaf, is_branching, leaf_end, last_of, statement_in, seen_in, length_from, place_in};

use base_bytes::either;
use base_codes::within;

// What a statement is asked for by, and what units are (specs/Rules.antt of `write_rows`).
const STATEMENT: u32 = 130;

const UNITS: u32 = 143;

// Does an item of this code end a statement that holds no other?
fn ends_leaf(c: u8) -> bool
    ensures { result ≡ ends_leaf c }
{
    either(
        either(c == base_codes::END, c == base_codes::EXPRESS),
        either(
            within(base_codes::ASSIGN, base_codes::DECREMENT, c),
            within(base_codes::ASSERT, base_codes::ELSE, c),
        ),
    )
}

// Does an `if` or a `do` begin with it?
fn is_branching(c: u8) -> bool
    ensures { result ≡ is_branching c }
{
    either(c == base_codes::IF, c == base_codes::DO)
}

// The first item from item q on that ends a statement that holds no other.
fn leaf_end(t: &[u32], q: usize) -> usize
    ensures { result ≡ leaf_end t.now q }
{
    let n = table_layout::items(t);
    for i in q..n {
        if ends_leaf(table_layout::code(t, i)) {
            return i;
        }
    }
    q.max(n)
}

// The last item of the statement at place q.
pub fn last_of(t: &[u32], q: usize) -> usize
    ensures { result ≡ last_of t.now q }
{
    if is_branching(table_layout::code(t, q)) {
        table_layout::link(t, q)
    } else {
        leaf_end(t, q)
    }
}

// Writes the statement at place q.
pub fn put_statement(t: &[u32], q: usize, out: &mut [u8], p: usize) -> usize
    ensures { pen out.new result ≡ puts (statement_in t.now q) (pen out.old p) }
{
    let last = base_bytes::least(base_ceilings::ITEMS_MOST, last_of(t, q));
    write_texts::write_tokens(t, STATEMENT, q, last + 1, out, p)
}

// Writes the statement at place q as it is shown, from a sheet on which every statement of an accepted text has room.
pub fn put_seen(t: &[u32], q: usize, out: &mut [u8], p: usize) -> usize
    ensures { pen out.new result ≡ puts (seen_in t.now q) (pen out.old p) }
{
    let mut text = [0u8; base_ceilings::NORMAL_MOST];
    let n = put_statement(t, q, &mut text, 0);
    show_printed::put_visible(base_bytes::part(&text, 0, n), out, p)
}

// How long the normal text is from the statement at place q on; NORMAL_MOST + 1 where it is longer than a normal text may be.
pub fn length_from(t: &[u32], q: usize) -> usize
    ensures { result ≡ length_from t.now q }
{
    let mut text = [0u8; base_ceilings::NORMAL_MOST];
    write_texts::write_tokens(t, UNITS, q, table_layout::items(t), &mut text, 0)
}

// Where the statement at place q begins in the normal text.
pub fn place(t: &[u32], q: usize) -> usize
    ensures { result ≡ place_in t.now q }
{
    base_bytes::minus(length_from(t, 0), length_from(t, q))
}
