// How the answers of the stepper's entries are shown.
#![tactic(auto)]

use run_entry::{Ending, Ran};
use step_entry::{Standing, Stepped};
use test_cases::put;

// Shows an answer; does the walk go on?
pub fn show_step(r: Stepped, printed: &[u8]) -> bool {
    match r {
        Stepped::Took(n) => {
            if n > 0 {
                put(b"<");
                put(test_cases::front(printed, n));
                put(b">");
            }
            true
        }
        Stepped::Assert => {
            put(b" assert");
            false
        }
        Stepped::Fault(_) => {
            put(b" fault");
            false
        }
        Stepped::Refused(x) => {
            put(b" refused");
            test_cases::number(b' ', x as usize);
            false
        }
    }
}

pub fn show_standing(v: Standing) {
    match v {
        Standing::Finished => put(b" finished\n"),
        Standing::Blocked => put(b" blocked\n"),
        Standing::Open => put(b" open\n"),
        Standing::Refused(x) => {
            put(b" refused");
            test_cases::number(b' ', x as usize);
            put(b"\n");
        }
    }
}

fn show_ending(e: Ending) {
    match e {
        Ending::Finished => put(b"run finished"),
        Ending::Blocked => put(b"run blocked"),
        Ending::Open => put(b"run open"),
        Ending::Assert => put(b"run assert"),
        Ending::Fault(_) => put(b"run fault"),
    }
}

pub fn show_run(r: Ran) {
    match r {
        Ran::Ended(e, n) => {
            show_ending(e);
            test_cases::number(b' ', n as usize);
        }
        Ran::Refused(x) => {
            put(b"run refused");
            test_cases::number(b' ', x as usize);
        }
    }
    put(b"\n");
}
