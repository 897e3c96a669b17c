// A refusal, as the entries that read and write texts answer it.
#![tactic(auto)]

ghost use Rattle.std.specs.Prelude.{◌≡◌};
ghost use Rattle.base_refusal.specs.Refusals.{refusal};

// A refusal: its number in document 01's table, and the place and length of the part that it names.
// The number stays a number, since that table, and `Refusal t x i n` of the specification (`spec_refusals`), speak by number.
#[derive(Clone, Copy)]
pub struct Refusal {
    pub number: u8,
    pub place: usize,
    pub length: usize,
}

impl Refusal {
    // A refusal that names no part.
    pub fn of_no_part(number: u8) -> Refusal
        ensures { result ≡ refusal number 0 0 }
    {
        Refusal {
            number,
            place: 0,
            length: 0,
        }
    }
}
