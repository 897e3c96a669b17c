// A list of commands, worked off line by line from its file.
ghost use Rattle.std.specs.Prelude.{◌≡◌};
ghost use Rattle.show_lists.specs.Tally.{batch_status};

use base_bytes::part;
use show_answers::{Output, is_read, put, seek};
use show_lists::progress::Watch;
use show_lists::tally::Tally;
use show_lists::words::Place;
use show_lists::{tally, words};
use show_statuses::{Answer, Status, status_of};
use std::io::{IsTerminal, Read};
use std::rt::{Clock, Files};

// The most bytes of a line of a list.
const LINE_MOST: usize = 4096;

// Where the work on a list stands: how many bytes of the line are gathered, two past its ceiling where it is too long even without a carriage return; what was counted; and what was told of it.
#[derive(Drop)]
struct Working {
    held: usize,
    tally: Tally,
    watch: Watch,
}

// Why a list was not worked off.
#[derive(Drop)]
enum Unworked {
    Marked,
    Failed,
}

// How many words stand behind the first, of words that each end with a line end.
fn words_behind(words: &[u8]) -> usize {
    let mut n: usize = 0;
    for b in words {
        if *b == b'\n' {
            n = base_bytes::least(n, 8) + 1;
        }
    }
    base_bytes::minus(n, 1)
}

// A command and its words, each of which ends with a line end.
fn perform_words(rt: &impl Files, words: &[u8], to: &mut Output) -> Status {
    let e = seek(words, 0, b'\n');
    let rest = part(words, e + 1, words.len());
    let f = seek(rest, 0, b'\n');
    let last = part(rest, f + 1, rest.len());
    super::perform(
        rt,
        part(words, 0, e),
        part(rest, 0, f),
        part(last, 0, seek(last, 0, b'\n')),
        words_behind(words),
        to,
    )
}

// A line whose words are not well formed.
fn refuse(words: &[u8], to: &mut Output) -> Status {
    put(words, to);
    status_of(Answer::Error)
}

// A line of a list: a command and its words.
fn perform_line(rt: &impl Files, line: &[u8], to: &mut Output) -> Status {
    let mut text = [0u8; LINE_MOST + 1];
    let n = words::put_words(line, &mut text, 0);
    match words::end_of(line) {
        Place::Apart => perform_words(rt, part(&text, 0, n), to),
        Place::Plain => perform_words(rt, part(&text, 0, n), to),
        Place::Closed => perform_words(rt, part(&text, 0, n), to),
        Place::Quoted => refuse(b"error: a quote does not end\n", to),
        Place::Slashed => refuse(b"error: a quote does not end\n", to),
        Place::Stray => refuse(
            b"error: in quotes a backslash stands before \" or \\ only\n",
            to,
        ),
        Place::Crowded => refuse(b"error: behind a closing quote a blank must stand\n", to),
    }
}

// The line that is gathered, without its line end; one that is too long is one byte too long.
fn gathered(line: &[u8], held: usize) -> &[u8] {
    let text = part(line, 0, held);
    if LINE_MOST + 1 < held {
        text
    } else {
        words::without_return(text)
    }
}

// The heading of command n, and the command.
fn answer_line(rt: &impl Files, line: &[u8], n: u32, to: &mut Output) -> Status {
    show_answers::head(n as usize, part(line, 0, LINE_MOST), to);
    if LINE_MOST < line.len() {
        return refuse(b"error: the line is longer than 4096 bytes\n", to);
    }
    perform_line(rt, line, to)
}

// Is the line no command? One that is too long is an error, whatever it begins with.
fn is_passed(line: &[u8]) -> bool {
    if LINE_MOST < line.len() {
        false
    } else {
        words::is_passed(line)
    }
}

// Works off the line that is gathered.
fn finish_line(
    rt: &(impl Files + Clock),
    line: &[u8],
    r: Working,
    x: Option<u32>,
    wrong: &mut [u32],
    errors: &mut [u32],
    to: &mut Output,
) -> Working {
    let text = gathered(line, r.held);
    let t = r.tally;
    let watch = r.watch;
    if is_passed(text) {
        return Working {
            held: 0,
            tally: t,
            watch,
        };
    }
    let n = tally::one_more(t.commands);
    let status = answer_line(rt, text, n, to);
    tally::keep(Status::Wrong, status, n, wrong, t.wrong);
    tally::keep(Status::Error, status, n, errors, t.errors);
    Working {
        held: 0,
        tally: tally::tallied(t, status),
        watch: if is_read(to) {
            show_lists::progress::told(rt, watch, n, x)
        } else {
            watch
        },
    }
}

// Keeps a byte of a line, as far as there is room.
fn keep(line: &mut [u8], at: usize, b: u8) {
    if line.len() <= at {
        return;
    }
    line[at] = b;
}

// One byte more of a list.
fn take_byte(
    rt: &(impl Files + Clock),
    b: u8,
    line: &mut [u8],
    r: Working,
    x: Option<u32>,
    wrong: &mut [u32],
    errors: &mut [u32],
    to: &mut Output,
) -> Working {
    if b == b'\n' {
        return finish_line(rt, line, r, x, wrong, errors, to);
    }
    let held = r.held;
    let t = r.tally;
    let watch = r.watch;
    keep(line, held, b);
    Working {
        held: base_bytes::least(held, LINE_MOST + 1) + 1,
        tally: t,
        watch,
    }
}

// Bytes more of a list, as long as its answers are read.
fn take_bytes(
    rt: &(impl Files + Clock),
    s: &[u8],
    line: &mut [u8],
    r: Working,
    x: Option<u32>,
    wrong: &mut [u32],
    errors: &mut [u32],
    to: &mut Output,
) -> Working {
    let mut now = r;
    for b in s {
        if !is_read(to) {
            return now;
        }
        now = take_byte(rt, *b, line, now, x, wrong, errors, to);
    }
    now
}

// Works off a list to its end, or until nobody reads its answers any more. There are more turns than any list uses up, since nothing says that a file ends.
fn work_off<R: Files + Clock>(
    rt: &R,
    stderr: &impl IsTerminal,
    mut file: R::File,
    x: Option<u32>,
    wrong: &mut [u32],
    errors: &mut [u32],
    to: &mut Output,
) -> Result<Tally, Unworked> {
    let mut front = [0u8; 3];
    let n = super::read_full(&mut file, &mut front);
    if base_bytes::same(part(&front, 0, n), b"\xef\xbb\xbf") {
        return Err(Unworked::Marked);
    }
    let mut line = [0u8; LINE_MOST + 1];
    let begun = Working {
        held: 0,
        tally: Tally {
            commands: 0,
            wrong: 0,
            errors: 0,
        },
        watch: show_lists::progress::begun(rt, stderr),
    };
    let mut r = take_bytes(
        rt,
        part(&front, 0, n),
        &mut line,
        begun,
        x,
        wrong,
        errors,
        to,
    );
    for _ in 0..u64::MAX {
        // Where nobody reads the answers any more, no further command is waited for.
        if !is_read(to) {
            return Ok(r.tally);
        }
        let mut chunk = io::buffer();
        let Ok(n) = file.read(&mut chunk) else {
            return Err(Unworked::Failed);
        };
        if n == 0 {
            // A last line that has no line end is a line all the same.
            if r.held > 0 {
                r = finish_line(rt, &line, r, x, wrong, errors, to);
            }
            return Ok(r.tally);
        }
        r = take_bytes(rt, &chunk[..n], &mut line, r, x, wrong, errors, to);
    }
    Err(Unworked::Failed)
}

// Tells what was counted, and answers.
fn close_list(x: Option<u32>, t: Tally, wrong: &[u32], errors: &[u32], to: &mut Output) -> Status
    ensures { result ≡ batch_status x t.commands t.wrong t.errors }
{
    let mut out = [0u8; tally::TOLD_ROOM];
    let a = tally::put_numbers(b"wrong:", wrong, t.wrong, &mut out, 0);
    let b = tally::put_numbers(b"errors:", errors, t.errors, &mut out, a);
    let c = tally::put_expected(x, t.commands, &mut out, b);
    let d = tally::put_tally(t, &mut out, c);
    put(part(&out, 0, d), to);
    tally::batch_status(x, t)
}

// Works off a list that is open.
fn batch_from<R: Files + Clock>(
    rt: &R,
    stderr: &impl IsTerminal,
    path: &[u8],
    file: R::File,
    x: Option<u32>,
    to: &mut Output,
) -> Status {
    let mut wrong = [0u32; tally::KEPT_MOST];
    let mut errors = [0u32; tally::KEPT_MOST];
    match work_off(rt, stderr, file, x, &mut wrong, &mut errors, to) {
        Ok(t) => close_list(x, t, &wrong, &errors, to),
        Err(Unworked::Marked) => refuse(b"error: the list begins with a byte order mark\n", to),
        Err(Unworked::Failed) => super::unreadable(path, to),
    }
}

// A list of which so many commands are expected; any number, where none is told.
fn batch_of(
    rt: &(impl Files + Clock),
    stderr: &impl IsTerminal,
    path: &[u8],
    x: Option<u32>,
    to: &mut Output,
) -> Status {
    match super::open_read(rt, path) {
        Some(file) => batch_from(rt, stderr, path, file, x, to),
        None => super::unreadable(path, to),
    }
}

// `batch LIST [COUNT]`: `count` words stand behind it.
pub fn batch(
    rt: &(impl Files + Clock),
    stderr: &impl IsTerminal,
    path: &[u8],
    word: &[u8],
    count: usize,
    to: &mut Output,
) -> Status {
    if count > 2 {
        return refuse(b"error: too many words\n", to);
    }
    if count < 2 {
        return batch_of(rt, stderr, path, None, to);
    }
    if super::is_limit(word) {
        return batch_of(rt, stderr, path, Some(text_pieces::value(word) as u32), to);
    }
    refuse(b"error: a count is a number of at most 9 digits\n", to)
}
