// What is counted of the commands of a list, the lines that tell it, and the status of the list.
ghost use Rattle.std.specs.Prelude.{◌≡◌, ◌++◌, set};
ghost use Rattle.base_pens.specs.Pen.{pen, puts};
ghost use Rattle.show_lists.specs.Tally as spec;

use show_statuses::Status;
use text_pens::{put, put_all};

// So many numbers of commands are kept that found something wrong, and as many of those that ended in an error.
pub const KEPT_MOST: usize = 16384;

// The most bytes of what is told behind the last command: the two lines of numbers, each of at most ten digits and a blank, and three lines of few words.
pub const TOLD_ROOM: usize = 22 * KEPT_MOST + 512;

// How many commands of a list were worked off, how many of them found something wrong, and how many ended in an error.
#[derive(Clone, Copy)]
pub struct Tally {
    pub commands: u32,
    pub wrong: u32,
    pub errors: u32,
}

// One more, unless there are as many as can be counted.
pub fn one_more(n: u32) -> u32
    ensures { result ≡ spec.more n }
{
    n.saturating_add(1)
}

// One more of those that end with status x.
fn more_if(x: Status, status: Status, n: u32) -> u32
    ensures { result ≡ spec.more_if x status n }
{
    if status == x { one_more(n) } else { n }
}

// One more command, with its status.
pub fn tallied(t: Tally, status: Status) -> Tally
    ensures { (result.commands ≡ spec.more t.commands) × (result.wrong ≡ spec.more_if Status.Wrong status t.wrong) × (result.errors ≡ spec.more_if Status.Error status t.errors) }
{
    Tally {
        commands: one_more(t.commands),
        wrong: more_if(Status::Wrong, status, t.wrong),
        errors: more_if(Status::Error, status, t.errors),
    }
}

// Keeps the number of a command that ends with status x, as one more behind n of them, as far as there is room.
pub fn keep(x: Status, status: Status, number: u32, kept: &mut [u32], n: u32)
    ensures { kept.new ≡ spec.kept_if x status number kept.old n }
{
    if status == x {
        let i = n as usize;
        if i < kept.len() {
            kept[i] = number;
        }
    }
}

// Is the number of commands as it should be? Any is, where none is expected.
fn is_expected(x: Option<u32>, n: u32) -> bool
    ensures { result ≡ spec.is_expected x n }
{
    match x {
        None => true,
        Some(k) => n == k,
    }
}

// The status of a list that was read to its end.
pub fn batch_status(x: Option<u32>, t: Tally) -> Status
    ensures { result ≡ spec.batch_status x t.commands t.wrong t.errors }
{
    let commands = t.commands;
    if commands == 0 {
        return Status::Error;
    }
    if !is_expected(x, commands) {
        return Status::Error;
    }
    if t.errors > 0 {
        return Status::Error;
    }
    if t.wrong > 0 {
        Status::Wrong
    } else {
        Status::Fine
    }
}

// Writes the first m of the kept numbers, each behind a blank.
fn put_each(kept: &[u32], m: usize, out: &mut [u8], p: usize) -> usize
    ensures { pen out.new result ≡ puts (spec.each_of kept.now 0 m) (pen out.old p) }
{
    let mut q = p;
    for k in 0..m {
        let a = put(out, q, b' ');
        q = put_number(base_bytes::word_at(kept, k) as u32, out, a);
    }
    q
}

fn put_number(n: u32, out: &mut [u8], p: usize) -> usize
    ensures { pen out.new result ≡ puts (spec.digits n) (pen out.old p) }
{
    text_pens::put_digits(n, 10, out, p)
}

// Writes how many more there are than are told.
fn put_further(n: u32, out: &mut [u8], p: usize) -> usize
    ensures { pen out.new result ≡ puts (spec.further_text n) (pen out.old p) }
{
    if n == 0 {
        return p;
    }
    let a = put_all(b" and ", out, p);
    let b = put_number(n, out, a);
    put_all(b" more", out, b)
}

// Writes the numbers of the commands of one kind, of which there are n; nothing where there is none.
pub fn put_numbers(word: &[u8], kept: &[u32], n: u32, out: &mut [u8], p: usize) -> usize
    ensures { pen out.new result ≡ puts (spec.numbers_text word.now kept.now n) (pen out.old p) }
{
    if n == 0 {
        return p;
    }
    let told = base_bytes::least(n as usize, KEPT_MOST);
    let a = put_all(word, out, p);
    let b = put_each(kept, told, out, a);
    let c = put_further(n - told as u32, out, b);
    put(out, c, b'\n')
}

// Writes what is wrong with the number of commands.
pub fn put_expected(x: Option<u32>, n: u32, out: &mut [u8], p: usize) -> usize
    ensures { pen out.new result ≡ puts (spec.expected_text x n) (pen out.old p) }
{
    if n == 0 {
        return put_all(b"  the list holds no command\n", out, p);
    }
    match x {
        None => p,
        Some(k) => put_other(n, k, out, p),
    }
}

// Writes that there are n commands and not k, where they are not.
fn put_other(n: u32, k: u32, out: &mut [u8], p: usize) -> usize
    ensures { pen out.new result ≡ puts (spec.other_text n k) (pen out.old p) }
{
    if n == k {
        return p;
    }
    let a = put_all(b"  ", out, p);
    let b = put_number(n, out, a);
    let c = put_all(b" commands were worked off, and ", out, b);
    let d = put_number(k, out, c);
    put_all(b" were expected\n", out, d)
}

// Writes the last line of a list.
pub fn put_tally(t: Tally, out: &mut [u8], p: usize) -> usize
    ensures { pen out.new result ≡ puts (spec.tally_text t.commands t.wrong t.errors) (pen out.old p) }
{
    let commands = t.commands;
    let wrong = t.wrong;
    let errors = t.errors;
    let a = put_number(commands, out, p);
    let b = put_all(b" commands, ", out, a);
    let c = put_number(wrong, out, b);
    let d = put_all(b" wrong, ", out, c);
    let e = put_number(errors, out, d);
    put_all(b" errors\n", out, e)
}
