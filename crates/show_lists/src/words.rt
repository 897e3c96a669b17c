// The words of a line of a list, each with a line end behind it, since no line holds one; and which lines are no commands.
ghost use Rattle.std.specs.Prelude.{◌≡◌};
ghost use Rattle.base_pens.specs.Pen.{pen, puts};
ghost use Rattle.show_lists.specs.Words as spec;

use base_bytes::either;
use text_pens::put;

// Where in a line one stands: where a word may begin, in a word, in quotes, there behind a backslash, behind a closing quote; or behind a backslash in quotes that stands before something else, or behind what may
// not stand right behind a closing quote.
#[derive(Clone, Copy)]
pub enum Place {
    Apart,
    Plain,
    Quoted,
    Slashed,
    Closed,
    Stray,
    Crowded,
}

// A blank or a tab.
fn is_blank(b: u8) -> bool
    ensures { result ≡ spec.is_blank b }
{
    either(b == b' ', b == b'\t')
}

// What a backslash in quotes stands before.
fn is_slashed(b: u8) -> bool
    ensures { result ≡ spec.is_slashed b }
{
    either(b == b'"', b == b'\\')
}

fn behind_apart(b: u8) -> Place
    ensures { result ≡ spec.behind Place.Apart b }
{
    if is_blank(b) {
        return Place::Apart;
    }
    if b == b'"' {
        return Place::Quoted;
    }
    Place::Plain
}

fn behind_plain(b: u8) -> Place
    ensures { result ≡ spec.behind Place.Plain b }
{
    if is_blank(b) {
        return Place::Apart;
    }
    Place::Plain
}

fn behind_quoted(b: u8) -> Place
    ensures { result ≡ spec.behind Place.Quoted b }
{
    if b == b'"' {
        return Place::Closed;
    }
    if b == b'\\' {
        return Place::Slashed;
    }
    Place::Quoted
}

fn behind_slashed(b: u8) -> Place
    ensures { result ≡ spec.behind Place.Slashed b }
{
    if is_slashed(b) {
        return Place::Quoted;
    }
    Place::Stray
}

fn behind_closed(b: u8) -> Place
    ensures { result ≡ spec.behind Place.Closed b }
{
    if is_blank(b) {
        return Place::Apart;
    }
    Place::Crowded
}

// Where one stands behind byte b.
fn behind(x: Place, b: u8) -> Place
    ensures { result ≡ spec.behind x b }
{
    match x {
        Place::Apart => behind_apart(b),
        Place::Plain => behind_plain(b),
        Place::Quoted => behind_quoted(b),
        Place::Slashed => behind_slashed(b),
        Place::Closed => behind_closed(b),
        Place::Stray => Place::Stray,
        Place::Crowded => Place::Crowded,
    }
}

// Does a word end where byte b stands?
fn ends_word(x: Place, b: u8) -> bool
    ensures { result ≡ spec.ends_word x b }
{
    match x {
        Place::Apart => false,
        Place::Plain => is_blank(b),
        Place::Quoted => false,
        Place::Slashed => false,
        Place::Closed => is_blank(b),
        Place::Stray => false,
        Place::Crowded => false,
    }
}

// Is byte b one of a word?
fn is_kept(x: Place, b: u8) -> bool
    ensures { result ≡ spec.is_kept x b }
{
    match x {
        Place::Apart => !either(is_blank(b), b == b'"'),
        Place::Plain => !is_blank(b),
        Place::Quoted => !is_slashed(b),
        Place::Slashed => is_slashed(b),
        Place::Closed => false,
        Place::Stray => false,
        Place::Crowded => false,
    }
}

// Writes what byte b adds to the words.
fn put_byte(x: Place, b: u8, out: &mut [u8], p: usize) -> usize
    ensures { pen out.new result ≡ puts (spec.added x b) (pen out.old p) }
{
    if is_kept(x, b) {
        return put(out, p, b);
    }
    if ends_word(x, b) {
        return put(out, p, b'\n');
    }
    p
}

// Does a word end where the line does?
fn ends_last(x: Place) -> bool
    ensures { result ≡ spec.ends_last x }
{
    match x {
        Place::Apart => false,
        Place::Plain => true,
        Place::Quoted => false,
        Place::Slashed => false,
        Place::Closed => true,
        Place::Stray => false,
        Place::Crowded => false,
    }
}

// Writes the end of a word, if one ends where the line does.
fn put_last(x: Place, out: &mut [u8], p: usize) -> usize
    ensures { pen out.new result ≡ puts (spec.added_last x) (pen out.old p) }
{
    if ends_last(x) {
        return put(out, p, b'\n');
    }
    p
}

// Writes the words of a line, as far as it has some before what is wrong.
pub fn put_words(line: &[u8], out: &mut [u8], p: usize) -> usize
    ensures { pen out.new result ≡ puts (spec.words_from Place.Apart line.now) (pen out.old p) }
{
    let mut x = Place::Apart;
    let mut q = p;
    for b in line {
        q = put_byte(x, *b, out, q);
        x = behind(x, *b);
    }
    put_last(x, out, q)
}

// Where one stands behind the whole line.
pub fn end_of(line: &[u8]) -> Place
    ensures { result ≡ spec.end_from Place.Apart line.now }
{
    let mut x = Place::Apart;
    for b in line {
        x = behind(x, *b);
    }
    x
}

// Is it no command? It is empty but for blanks, or begins with `#`.
pub fn is_passed(line: &[u8]) -> bool
    ensures { result ≡ spec.is_passed line.now }
{
    for b in line {
        if !is_blank(*b) {
            return *b == b'#';
        }
    }
    true
}

// A line without the carriage return of its line end.
pub fn without_return(line: &[u8]) -> &[u8]
    ensures { result.now ≡ spec.without_return line.now }
{
    let last = base_bytes::minus(line.len(), 1);
    if base_bytes::byte_at(line, last) == b'\r' {
        base_bytes::part(line, 0, last)
    } else {
        line
    }
}
