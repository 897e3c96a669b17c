// Answers, and the line and the marks of a refused part, written to lent bytes; and the two functions that hand finished bytes to standard output.
#![tactic(auto)]

ghost use Rattle.std.specs.Prelude.{◌≤◌, ◌-◌, min, ◌≡◌, [], ◌∷◌, ◌++◌, length, get_or, eqb};
ghost use Rattle.base_bytes.specs.Choice.{pick};
ghost use Rattle.base_pens.specs.Pen.{pen, puts};
ghost use Rattle.rule_sheets.specs.Walks.{first};
ghost use Rattle.spec_text.specs.Formats.{digits_of};
ghost use Rattle.spec_trails.specs.Trails.{verdicts};
ghost use Rattle.spec_account.specs.Refused as shown;
ghost use Rattle.spec_account.specs.Answers as answers;
ghost use Rattle.show_answers.specs.Parts as parts;

use base_bytes::part;
use show_words::put_count;
use std::io::{ErrorKind, Stdout, Write};
use text_pens::put_all;

// The most bytes of what is handed on at once: no normal text takes more where it is shown; a longer line of a text is not shown.
const HANDED_MOST: usize = 8 * base_ceilings::NORMAL_MOST + 2048;

// The most bytes of an error or a heading: a name or a line has at most 4,096, which take four each where they cannot be shown.
const ERROR_ROOM: usize = 16384 + 64;

const STATUS_ROOM: usize = 32;

// The descriptor on which the status of the answer is told.
const STATUS_FILENO: i32 = 3;

// Standard output: whether all that was handed to it so far could be written whole, and whether there is still somebody to read it. Once something could not be written whole, no status is told any more.
#[derive(Drop)]
pub struct Output {
    stdout: Stdout,
    whole: bool,
    read: bool,
}

// Standard output, to which nothing was handed yet.
pub fn fresh_output(stdout: Stdout) -> Output {
    Output {
        stdout,
        whole: true,
        read: true,
    }
}

// Hands finished bytes to standard output: an answer. Where they cannot be written whole, that is kept, so that no status can be told any more; where nobody reads, nothing is written any more.
pub fn put(s: &[u8], to: &mut Output) {
    if !to.read {
        return;
    }
    match to.stdout.write_all(s) {
        Ok(()) => {}
        Err(e) => {
            to.whole = false;
            to.read = e.kind() != ErrorKind::BrokenPipe;
        }
    }
}

// Is there still somebody to read standard output, as far as is known?
pub fn is_read(to: &Output) -> bool {
    to.read
}

// Writes the line that tells a status.
fn put_status(x: u8, out: &mut [u8], p: usize) -> usize
    ensures { pen out.new result ≡ puts (answers.status_line x) (pen out.old p) }
{
    put_counted(b"status", x as usize, out, p)
}

// Tells the status of the answer, for who started the program: the last that it does. Where a part of the output could not be written whole, nothing is told.
pub fn tell_status(x: u8, to: &Output) {
    if !to.whole {
        return;
    }
    let mut line = [0u8; STATUS_ROOM];
    let n = put_status(x, &mut line, 0);
    io::write_all(STATUS_FILENO, part(&line, 0, n));
}

// Hands on the first n bytes that were written to a buffer, of what stands before an answer, guarded; where they did not fit, a line that says so.
pub fn hand_on(buffer: &[u8], n: usize, to: &mut Output) {
    if base_bytes::least(HANDED_MOST, buffer.len()) < n {
        put(b"  this part is too long to be shown\n", to);
        return;
    }
    let mut out = [0u8; 3 * HANDED_MOST];
    let w = show_printed::put_guarded(part(buffer, 0, n), &mut out, 0);
    put(part(&out, 0, w), to);
}

// Writes an error: its words, and what it speaks of.
fn put_error(words: &[u8], name: &[u8], out: &mut [u8], p: usize) -> usize
    ensures { pen out.new result ≡ puts (answers.error_line words.now name.now) (pen out.old p) }
{
    let a = put_all(words, out, p);
    let b = show_printed::put_escapes(name, out, a);
    text_pens::put(out, b, b'\n')
}

// Writes the heading of command n of a list.
fn put_heading(n: usize, line: &[u8], out: &mut [u8], p: usize) -> usize
    ensures { pen out.new result ≡ puts (answers.heading_line n line.now) (pen out.old p) }
{
    let a = put_all(b"== ", out, p);
    let b = put_count(n, out, a);
    let c = text_pens::put(out, b, b' ');
    let d = show_printed::put_escapes(line, out, c);
    text_pens::put(out, d, b'\n')
}

// Heads the answer of command n of a list.
pub fn head(n: usize, line: &[u8], to: &mut Output) {
    let mut out = [0u8; ERROR_ROOM];
    let k = put_heading(n, line, &mut out, 0);
    put(part(&out, 0, k), to);
}

// Answers with an error.
pub fn complain(words: &[u8], name: &[u8], to: &mut Output) {
    let mut line = [0u8; ERROR_ROOM];
    let n = put_error(words, name, &mut line, 0);
    put(part(&line, 0, n), to);
}

// The place of the first such byte from a place on, or the end.
pub fn seek(line: &[u8], from: usize, b: u8) -> usize
    ensures { (min from (length line.now) ≤ result) × (result ≤ length line.now) × (result ≡ first (λ k. eqb (get_or line.now k 0) b) (min from (length line.now)) (length line.now - min from (length line.now))) }
{
    for k in base_bytes::least(from, line.len())..line.len() {
        if line[k] == b {
            return k;
        }
    }
    line.len()
}

// Where the bytes before the first line end end.
fn line_stop(s: &[u8]) -> usize
    ensures { (result ≤ length s.now) × (result ≡ length (shown.first_line s.now)) }
{
    for (k, b) in s.iter().enumerate() {
        if *b == b'\n' {
            return k;
        }
    }
    s.len()
}

// The bytes before the first line end.
fn first_line(s: &[u8]) -> &[u8]
    ensures { result.now ≡ shown.first_line s.now }
{
    part(s, 0, line_stop(s))
}

// Where a line begins behind byte b: at `next`, if it ends one.
fn start_behind(b: u8, next: usize, start: usize) -> usize
    ensures { result ≡ pick (eqb b 10) next start }
{
    if b == b'\n' { next } else { start }
}

// Where the bytes behind the last line end begin.
fn line_start(s: &[u8]) -> usize
    ensures { (result ≤ length s.now) × (parts.Last s.now result) }
{
    let mut start: usize = 0;
    for (k, b) in s.iter().enumerate() {
        start = start_behind(*b, k + 1, start);
    }
    start
}

// The bytes behind the last line end.
fn last_line(s: &[u8]) -> &[u8]
    ensures { result.now ≡ shown.last_line [] s.now }
{
    part(s, line_start(s), s.len())
}

// Writes as many of a mark as the bytes of s take when they are shown.
fn put_under(s: &[u8], mark: u8, out: &mut [u8], p: usize) -> usize
    ensures { pen out.new result ≡ puts (shown.under mark s.now) (pen out.old p) }
{
    let mut q = p;
    for b in s {
        q = text_pens::put_times(mark, show_printed::width(*b), out, q);
    }
    q
}

// Writes the marks under a part: one where it is empty.
fn put_marks(s: &[u8], out: &mut [u8], p: usize) -> usize
    ensures { pen out.new result ≡ puts (shown.marks s.now) (pen out.old p) }
{
    if s.len() == 0 {
        return put_all(b"^", out, p);
    }
    put_under(s, b'^', out, p)
}

// Writes the line and the column of the place behind `before`.
fn put_where(before: &[u8], out: &mut [u8], p: usize) -> usize
    ensures { pen out.new result ≡ puts (parts.where_text before.now) (pen out.old p) }
{
    let at = text_tokens::located(before, before.len());
    let line = at.line;
    let column = at.column;
    let a = put_all(b"  line ", out, p);
    let b = put_count(line, out, a);
    let c = put_all(b" column ", out, b);
    put_count(column, out, c)
}

// Writes a line of a text, two blanks in.
fn put_line(before: &[u8], from: &[u8], out: &mut [u8], p: usize) -> usize
    ensures { pen out.new result ≡ puts (parts.line_text before.now from.now) (pen out.old p) }
{
    let a = put_all(b"\n  ", out, p);
    let b = show_printed::put_visible(before, out, a);
    let c = show_printed::put_visible(from, out, b);
    put_all(b"\n  ", out, c)
}

// Writes where the refused part of a text stands, its line, and marks under it.
pub fn put_refused(text: &[u8], place: usize, len: usize, out: &mut [u8], p: usize) -> usize
    ensures { pen out.new result ≡ puts (shown.refused_at text.now place len) (pen out.old p) }
{
    let front = part(text, 0, place);
    let before = last_line(front);
    let from = first_line(part(text, place, text.len()));
    let a = put_where(front, out, p);
    let b = put_line(before, from, out, a);
    let c = put_under(before, b' ', out, b);
    let d = put_marks(part(from, 0, len), out, c);
    text_pens::put(out, d, b'\n')
}

// Writes a word and a count, and ends the line.
pub fn put_counted(word: &[u8], n: usize, out: &mut [u8], p: usize) -> usize
    ensures { pen out.new result ≡ puts (word.now ++ 32 ∷ (digits_of n ++ 10 ∷ [])) (pen out.old p) }
{
    let a = put_all(word, out, p);
    let b = text_pens::put(out, a, b' ');
    let c = put_count(n, out, b);
    text_pens::put(out, c, b'\n')
}

// Writes the answer for a text that is refused.
pub fn put_refusal(x: u8, place: usize, len: usize, out: &mut [u8], p: usize) -> usize
    ensures { pen out.new result ≡ puts (answers.refused_line x place len) (pen out.old p) }
{
    let a = put_all(b"refused ", out, p);
    let b = put_count(x as usize, out, a);
    let c = text_pens::put(out, b, b' ');
    let d = put_count(place, out, c);
    put_counted(b"", len, out, d)
}

// Writes the answer for a trail that is refused.
pub fn put_stopped(x: u8, line: usize, out: &mut [u8], p: usize) -> usize
    ensures { pen out.new result ≡ puts (answers.stopped_line x line) (pen out.old p) }
{
    let a = put_all(b"refused ", out, p);
    let b = put_count(x as usize, out, a);
    put_counted(b"", line, out, b)
}

// Writes the word of a verdict, by its number in a trail.
fn put_verdict(v: u8, out: &mut [u8], p: usize) -> usize
    ensures { pen out.new result ≡ puts (get_or verdicts (v - 1) []) (pen out.old p) }
{
    match v {
        0 => put_all(b"assert", out, p),
        1 => put_all(b"assert", out, p),
        2 => put_all(b"fault", out, p),
        3 => put_all(b"finished", out, p),
        4 => put_all(b"blocked", out, p),
        5 => put_all(b"open", out, p),
        _ => p,
    }
}

// Writes the answer for a trail that is accepted.
pub fn put_accepted(v: u8, out: &mut [u8], p: usize) -> usize
    ensures { pen out.new result ≡ puts (answers.accepted_line v) (pen out.old p) }
{
    let a = put_all(b"accepted ", out, p);
    let b = put_verdict(v, out, a);
    text_pens::put(out, b, b'\n')
}
