// A step, and what came of taking it, for the specification and the code alike.
#![tactic(auto)]

use base_values::Fault;

// Whom a step takes along: a process, at a place of its own; or nobody.
#[derive(Clone, Copy)]
pub enum Partner {
    Nobody,
    With(u8, u32),
}

// A step: its process, its number k among the steps of that process, from 1, its statement's place, and its partner.
#[derive(Clone, Copy)]
pub struct Step {
    pub process: u8,
    pub number: u32,
    pub place: u32,
    pub partner: Partner,
}

// It is done, its assertion failed, it faulted; or there is none to take.
#[derive(Clone, Copy)]
pub enum Taken {
    Done,
    Refuted,
    Faulted(Fault),
    Idle,
}
