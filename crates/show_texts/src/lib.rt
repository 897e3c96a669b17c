// A command on the text of a model. Each function that answers returns the status of its answer (`show_statuses`).
#![tactic(auto)]

ghost use Rattle.std.specs.Prelude.{◌≡◌};
ghost use Rattle.show_texts.specs.Statuses as statuses;

use base_bytes::part;
use show_answers::{Output, put};
use show_statuses::{Answer, Status, status_of};

// The most bytes of what is shown of a refused text, and of an answer.
const REFUSAL_ROOM: usize = 8 * base_ceilings::NORMAL_MOST + 2048;

const ANSWER_ROOM: usize = 64;

// Writes where the refused part stands, if there is one.
fn put_place(text: &[u8], x: u8, place: usize, len: usize, out: &mut [u8]) -> usize {
    if x == 6 {
        return 0;
    }
    if base_ceilings::TEXT_MOST < text.len() {
        return 0;
    }
    show_answers::put_refused(text, place, len, out, 0)
}

// Shows where the part stands for which a model is refused, and in a sentence what was found, which is shown even where the part's line is too long for it.
fn explain(text: &[u8], x: u8, place: usize, len: usize, to: &mut Output) {
    let mut out = [0u8; REFUSAL_ROOM];
    let a = put_place(text, x, place, len, &mut out);
    show_answers::hand_on(&out, a, to);
    let b = show_sentences::put_sentence(text, place, len, &mut out, 0);
    show_answers::hand_on(&out, b, to);
}

// A model that is refused: where, what was found, and the answer.
fn refuse(text: &[u8], x: u8, place: usize, len: usize, to: &mut Output) {
    explain(text, x, place, len, to);
    let mut line = [0u8; ANSWER_ROOM];
    let n = show_answers::put_refusal(x, place, len, &mut line, 0);
    put(part(&line, 0, n), to);
}

// A command that there is not.
pub fn unknown(command: &[u8], to: &mut Output) -> Status
    ensures { result ≡ Status.Error }
{
    show_answers::complain(b"error: unknown command ", command, to);
    status_of(Answer::Error)
}

// `normal MODEL`
fn show_normal(text: &[u8], to: &mut Output) -> Status
    ensures { result ≡ statuses.normal_status text.now }
{
    let mut out = [0u8; base_ceilings::NORMAL_MOST];
    let w = normal_entry::normal(text, &mut out);
    match w {
        Ok(n) => {
            put(part(&out, 0, n), to);
            put(b"\n", to);
            status_of(Answer::Text)
        }
        Err(r) => {
            refuse(text, r.number, r.place, r.length, to);
            status_of(Answer::Refused)
        }
    }
}

// `layout MODEL`: its bytes and no others, since each of its lines has its end
fn show_layout(text: &[u8], to: &mut Output) -> Status
    ensures { result ≡ statuses.layout_status text.now }
{
    let mut out = [0u8; base_ceilings::TEXT_MOST];
    let w = layout_entry::layout(text, &mut out);
    match w {
        Ok(n) => {
            put(part(&out, 0, n), to);
            status_of(Answer::Text)
        }
        Err(r) => {
            refuse(text, r.number, r.place, r.length, to);
            status_of(Answer::Refused)
        }
    }
}

// A command on the tables of an accepted model, with its trail or its limit.
fn perform_on(command: &[u8], tables: &[u32], trail: &[u8], limit: u32, to: &mut Output) -> Status
    ensures { result ≡ statuses.command_status command.now tables.now trail.now limit }
{
    if base_bytes::same(command, b"read") {
        put(b"accepted\n", to);
        return status_of(Answer::Accepted);
    }
    if base_bytes::same(command, b"start") {
        return show_commands::start(tables, to);
    }
    if base_bytes::same(command, b"run") {
        return show_commands::run(tables, limit, to);
    }
    if base_bytes::same(command, b"replay") {
        return show_commands::replay(tables, trail, to);
    }
    if base_bytes::same(command, b"steps") {
        return show_trails::steps(tables, trail, to);
    }
    if base_bytes::same(command, b"state") {
        return show_left::state(tables, trail, to);
    }
    unknown(command, to)
}

// A command with the text of its model.
pub fn perform_text(
    command: &[u8],
    text: &[u8],
    trail: &[u8],
    limit: u32,
    to: &mut Output,
) -> Status
    ensures { result ≡ statuses.text_status command.now text.now trail.now limit }
{
    if base_bytes::same(command, b"normal") {
        return show_normal(text, to);
    }
    if base_bytes::same(command, b"layout") {
        return show_layout(text, to);
    }
    let mut tables = [0u32; base_ceilings::TABLES_ROOM];
    let j = read_entry::read(text, &mut tables);
    match j {
        Ok(()) => show_statuses::on_model(true, perform_on(command, &tables, trail, limit, to)),
        Err(r) => {
            refuse(text, r.number, r.place, r.length, to);
            // No command was performed, so it has no status of its own.
            show_statuses::on_model(false, Status::Fine)
        }
    }
}
