// The entries of the reader: is this a model, and what are its tables; and the part of the text that a refusal names.
#![tactic(auto)]

ghost use Rattle.std.specs.Prelude.{◌≡◌, length};
ghost use Rattle.read_passes.specs.Judging.{judge_of};
ghost use Rattle.read_entry.specs.Entries.{read_of, left_of, part_start, part, behind, Bounded};

use base_refusal::Refusal;

// The answer for a text; of an accepted one the tables, at the front of what is lent.
pub fn read(text: &[u8], tables: &mut [u32]) -> Result<(), Refusal>
    ensures value { result ≡ read_of text.now tables.old }
    ensures tables_after { tables.new ≡ left_of text.now tables.old }
{
    if tables.len() < base_ceilings::TABLES_ROOM {
        return Err(Refusal::of_no_part(7));
    }
    read_passes::pass(text, tables)
}

// From where to where a part of a text of n bytes reaches.
#[derive(Drop)]
struct Bounds {
    start: usize,
    end: usize,
}

// The part that an answer names, within a text of n bytes.
fn named(j: Result<(), Refusal>, n: usize) -> Bounds
    ensures { Bounded n j result.start result.end }
{
    if let Err(r) = j {
        if r.place <= n && r.length <= n - r.place {
            return Bounds {
                start: r.place,
                end: r.place + r.length,
            };
        }
    }
    Bounds { start: 0, end: 0 }
}

// The part of the text that a refusal names: empty, at the start, for a text that is accepted or refused by no part.
pub fn refused_part(text: &[u8]) -> &[u8]
    ensures result_value { result.now ≡ part text.now (judge_of text.now) }
    ensures ref_ptr_value { result.ref_ptr ≡ behind text.entry.ref_ptr (part_start (length text.now) (judge_of text.now)) }
{
    let mut tables = [0u32; base_ceilings::TABLES_ROOM];
    let b = named(read(text, &mut tables), text.len());
    let s = b.start;
    let e = b.end;
    &text[s..e]
}
