// The automatic run, which shows what its steps print as it goes: the same run as that of `run_entry`.
#![tactic(auto)]

ghost use Rattle.std.specs.Prelude.{◌≡◌};
ghost use Rattle.run_entry.specs.Runs.{turn_in, run_in, shown};

use base_bytes::part;
use base_outcome::Taken;
use base_values::Fault;
use run_entry::{Ending, Ran};
use show_answers::{Output, is_read, put};
use step_all::Offer;

// The most bytes that the printed text of a step takes as it is shown: a margin and four bytes for each.
const SHOWN_MOST: usize = 6 * base_ceilings::PRINT_ROOM;

// After so many steps, always, a run shows that it is alive.
const STEPS_BETWEEN: u32 = 1000000;

// The descriptor of standard error.
const STDERR_FILENO: i32 = 2;

// Shows what a step printed; line[0] is 10 where a line begins, and keeps the last byte that was printed.
fn put_printed(printed: &[u8], n: usize, line: &mut [u8], to: &mut Output) {
    let text = part(printed, 0, n);
    if text.len() > 0 {
        if line.len() > 0 {
            let mut out = [0u8; SHOWN_MOST];
            let w = show_printed::put_text(text, line[0] == 10, &mut out, 0);
            put(part(&out, 0, w), to);
            line[0] = text[text.len() - 1];
        }
    }
}

// The first offered step is taken, and what it prints is written; idle where none is offered.
fn turn(t: &[u32], s: &mut [i32], line: &mut [u8], to: &mut Output) -> Taken
    ensures { (result, s.new) ≡ turn_in t.now s.old }
{
    let o = step_all::nth(t, s, 0);
    match o {
        Offer::Step(x) => {
            let mut printed = [0u8; base_ceilings::PRINT_ROOM];
            let n = step_prints::print_at(t, s, x.process, x.place, &mut printed);
            put_printed(&printed, n, line, to);
            step_all::advance(t, s, x)
        }
        Offer::Beyond(_) => Taken::Idle,
    }
}

// Shows on standard error how far a long run has come, as long as its output is read.
fn show_progress(n: u32, to: &Output) {
    if !is_read(to) {
        return;
    }
    if n % STEPS_BETWEEN == STEPS_BETWEEN - 1 {
        io::print_decimal(STDERR_FILENO, n as u64 + 1);
        io::write_all(STDERR_FILENO, b" steps\n");
    }
}

// The run from a state on; line[0] is 10 where a line begins.
pub fn run(t: &[u32], s: &mut [i32], limit: u32, line: &mut [u8], to: &mut Output) -> Ran
    ensures { (result, s.new) ≡ shown (run_in t.now limit s.old) }
{
    for n in 0..limit {
        let r = turn(t, s, line, to);
        match r {
            Taken::Done => {
                show_progress(n, to);
            }
            Taken::Refuted => {
                return Ran::Ended(Ending::Assert, n + 1);
            }
            Taken::Faulted(f) => {
                return Ran::Ended(Ending::Fault(f), n + 1);
            }
            Taken::Idle => {
                return Ran::Ended(step_all::verdict_of(t, s).into(), n);
            }
        }
    }
    Ran::Ended(step_all::verdict_of(t, s).into(), limit)
}
