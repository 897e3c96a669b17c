// A command with the words that stand behind it, over files; each returns the status of its answer (`show_statuses`). Lists of such commands stand in the module `lists`.
#![tactic(auto)]

ghost use Rattle.std.specs.Prelude.{◌≡◌};

pub mod lists;

use base_bytes::part;
use show_answers::{Output, put};
use show_statuses::{Answer, Status, status_of};
use std::fs;
use std::io::Read;
use std::rt::Files;
use std::str::from_utf8;

// The steps of a run that is given no limit.
const LIMIT: u32 = 1000000;

// Opens a file for reading.
fn open_read<R: Files>(rt: &R, path: &[u8]) -> Option<R::File> {
    match from_utf8(path) {
        Ok(name) => fs::open(rt, name).ok(),
        Err(_) => None,
    }
}

// Reads until the buffer is full, the file ends or a read fails; how many bytes of the buffer it filled.
fn read_full(file: &mut impl Read, buffer: &mut [u8]) -> usize {
    // The step is what each read filled, so no range counts it.
    let mut done: usize = 0;
    while done < buffer.len() {
        match file.read(&mut buffer[done..]) {
            Ok(0) => {
                return done;
            }
            Ok(n) => {
                done += n;
            }
            Err(_) => {
                return done;
            }
        }
    }
    done
}

// Reads a file that is open to its end, or as far as there is room; how many bytes it filled, or `None` where a read failed.
fn load_from(file: &mut impl Read, buffer: &mut [u8]) -> Option<usize> {
    let n = read_full(file, buffer);
    let mut beyond = [0u8; 1];
    // A read that failed has ended the loop as the end of the file would: one more tells them apart.
    match file.read(&mut beyond) {
        Ok(_) => Some(n),
        Err(_) => None,
    }
}

// The same of a file that is opened first; `None` too where it cannot be.
fn load(rt: &impl Files, path: &[u8], buffer: &mut [u8]) -> Option<usize> {
    let mut file = open_read(rt, path)?;
    load_from(&mut file, buffer)
}

// A file that cannot be read.
fn unreadable(path: &[u8], to: &mut Output) -> Status
    ensures { result ≡ Status.Error }
{
    show_answers::complain(b"error: cannot read ", path, to);
    status_of(Answer::Error)
}

// How many words stand behind a command, at the least and at the most, if there is such a command.
fn words_asked(command: &[u8]) -> Option<(usize, usize)> {
    if is_replay(command) {
        return Some((2, 2));
    }
    if base_bytes::same(command, b"run") {
        return Some((1, 2));
    }
    if is_plain(command) {
        Some((1, 1))
    } else {
        None
    }
}

// A command over a model alone.
fn is_plain(command: &[u8]) -> bool {
    base_bytes::same(command, b"read")
        || base_bytes::same(command, b"normal")
        || base_bytes::same(command, b"layout")
        || base_bytes::same(command, b"start")
}

// A command over a model and a trail.
fn is_replay(command: &[u8]) -> bool {
    base_bytes::same(command, b"replay")
        || base_bytes::same(command, b"steps")
        || base_bytes::same(command, b"state")
}

// A command with its model and its trail, from their files.
fn perform_files(
    rt: &impl Files,
    command: &[u8],
    model: &[u8],
    trail: &[u8],
    limit: u32,
    to: &mut Output,
) -> Status {
    let mut text = [0u8; base_ceilings::TEXT_MOST + 1];
    match load(rt, model, &mut text) {
        None => unreadable(model, to),
        Some(n) => show_texts::perform_text(command, part(&text, 0, n), trail, limit, to),
    }
}

// A command over a model and a trail, from their files. A trail is read to one byte past its ceiling, so that none is cut.
fn perform_replay(
    rt: &impl Files,
    command: &[u8],
    model: &[u8],
    file: &[u8],
    to: &mut Output,
) -> Status {
    let mut trail = [0u8; base_ceilings::TRAIL_MOST + 1];
    match load(rt, file, &mut trail) {
        None => unreadable(file, to),
        Some(n) => perform_files(rt, command, model, part(&trail, 0, n), 0, to),
    }
}

// Are these a number's digits, of at most 9?
fn is_limit(word: &[u8]) -> bool {
    (1..=9).contains(&word.len()) && word.iter().all(u8::is_ascii_digit)
}

// `run` with its limit.
fn perform_run(rt: &impl Files, model: &[u8], word: &[u8], to: &mut Output) -> Status {
    if is_limit(word) {
        return perform_files(rt, b"run", model, b"", text_pieces::value(word) as u32, to);
    }
    put(b"error: a limit is a number of at most 9 digits\n", to);
    status_of(Answer::Error)
}

// A command with its words: `count` of them stand behind it.
pub fn perform(
    rt: &impl Files,
    command: &[u8],
    first: &[u8],
    second: &[u8],
    count: usize,
    to: &mut Output,
) -> Status {
    let Some((least, most)) = words_asked(command) else {
        return show_texts::unknown(command, to);
    };
    if count < least {
        put(b"error: a word is missing\n", to);
        return status_of(Answer::Error);
    }
    if most < count {
        put(b"error: too many words\n", to);
        return status_of(Answer::Error);
    }
    if is_replay(command) {
        return perform_replay(rt, command, first, second, to);
    }
    if count == 2 {
        return perform_run(rt, first, second, to);
    }
    perform_files(rt, command, first, b"", LIMIT, to)
}
