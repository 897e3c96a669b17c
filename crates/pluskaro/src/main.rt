// The program over model and trail files. The last line of what it writes is always the answer; where its first word is `--status`, it tells the status of that answer at the very end.
#![tactic(auto)]

use base_bytes::part;
use show_answers::{Output, put};
use show_statuses::{Answer, Status, status_of};
use std::env::FillError;
use std::io::IsTerminal;
use std::process::ExitCode;
use std::rt::{Clock, Env, Files};

// The exit status where nobody reads standard output any more: what a shell tells of a program that the system ends for that, 128 and the number of SIGPIPE.
const UNREAD: u8 = 141;

// Puts argument i at the front of a buffer; its length, or 0 where it is missing or has no room.
fn arg(rt: &impl Env, i: usize, buffer: &mut [u8]) -> usize {
    rt.arg(i, buffer).unwrap_or(0)
}

// How many arguments there are, the program's name among them.
fn arg_count(rt: &impl Env) -> usize {
    let mut byte = [0u8; 1];
    for i in 0..usize::MAX {
        if let Err(FillError::NotPresent) = rt.arg(i, &mut byte) {
            return i;
        }
    }
    usize::MAX
}

// Is the first word `--status`?
fn is_asked(rt: &impl Env) -> bool {
    let mut word = io::buffer();
    let n = arg(rt, 1, &mut word);
    base_bytes::same(part(&word, 0, n), b"--status")
}

// A command that is not well formed.
fn refuse(words: &[u8], to: &mut Output) -> Status {
    put(words, to);
    status_of(Answer::Error)
}

// The command that is argument `at`, with its words: `count` of them stand behind it.
fn answer(
    rt: &(impl Env + Files + Clock),
    stderr: &impl IsTerminal,
    at: u8,
    count: usize,
    to: &mut Output,
) -> Status {
    let mut command = io::buffer();
    let mut first = io::buffer();
    let mut second = io::buffer();
    let c = arg(rt, at as usize, &mut command);
    let f = arg(rt, at as usize + 1, &mut first);
    let g = arg(rt, at as usize + 2, &mut second);
    if f == 0 {
        return refuse(b"error: a file's name is missing or too long\n", to);
    }
    if base_bytes::same(part(&command, 0, c), b"batch") {
        return show_files::lists::batch(
            rt,
            stderr,
            part(&first, 0, f),
            part(&second, 0, g),
            count,
            to,
        );
    }
    show_files::perform(
        rt,
        part(&command, 0, c),
        part(&first, 0, f),
        part(&second, 0, g),
        count,
        to,
    )
}

// The command that is argument `at`.
fn perform(
    rt: &(impl Env + Files + Clock),
    stderr: &impl IsTerminal,
    at: u8,
    to: &mut Output,
) -> Status {
    let count = arg_count(rt);
    if count < at as usize + 2 {
        return refuse(
            b"error: usage: pluskaro read|normal|layout|start MODEL, run MODEL [LIMIT], replay|steps|state MODEL TRAIL, batch LIST [COUNT]\n",
            to,
        );
    }
    answer(rt, stderr, at, count - at as usize - 1, to)
}

fn main(rt: HostRuntime) -> ExitCode {
    let mut to = show_answers::fresh_output(rt.stdout());
    if is_asked(&rt) {
        let x = perform(&rt, &rt.stderr(), 2, &mut to);
        show_answers::tell_status(u8::from(x), &to);
    } else {
        perform(&rt, &rt.stderr(), 1, &mut to);
    }
    if show_answers::is_read(&to) {
        ExitCode::SUCCESS
    } else {
        ExitCode::from(UNREAD)
    }
}
