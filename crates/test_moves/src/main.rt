// Walks through each model on standard input by the entries of the stepper; then the automatic run, and steps that are refused (crate `test_walks`).
#![tactic(auto)]

use test_answers::show_run;
use test_cases::put;

// The limit of a run.
const LIMIT: u32 = 60;

fn each(text: &[u8]) {
    let mut tables = [0u32; 16384];
    match read_entry::read(text, &mut tables) {
        Ok(()) => {
            let mut state = [0i32; 2048];
            step_entry::start(&tables, &mut state);
            test_walks::walk(&tables, &mut state);
            test_answers::show_standing(step_entry::verdict(&tables, &state));
            step_entry::start(&tables, &mut state);
            show_run(run_entry::run(&tables, &mut state, LIMIT));
            test_walks::corners(&tables);
        }
        Err(r) => {
            put(b"model refused");
            test_cases::number(b' ', r.number as usize);
            test_cases::number(b' ', r.place);
            put(b"\n");
        }
    }
}

fn main() {
    test_cases::for_each(&mut [0u8; 16384], |text| each(text));
}
