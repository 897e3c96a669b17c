// The ceilings as numbers of the code; specs/Ceilings.antt says what each of them is, in the same order, and `ceiling` that they are the same.
#![tactic(auto)]

ghost use Rattle.std.specs.Prelude.{◌≡◌, get_or};
ghost use Rattle.base_ceilings.specs.Ceilings.{ceilings};

pub const TEXT_MOST: usize = 65536;

pub const NORMAL_MOST: usize = 8192;

pub const ITEMS_MOST: usize = 8192;

pub const TOKENS_MOST: usize = 2048;

pub const WORD_MOST: usize = 32;

pub const STRING_MOST: usize = 64;

pub const NUMBER_MOST: usize = 2147483647;

pub const BRACKETS_MOST: usize = 32;

pub const SELECTIONS_MOST: usize = 8;

pub const HEIGHT_MOST: usize = 32;

pub const STATEMENTS_MOST: usize = 512;

pub const MTYPES_MOST: usize = 64;

pub const PROCTYPES_MOST: usize = 16;

pub const GLOBALS_MOST: usize = 64;

pub const NUMBERS_MOST: usize = 32;

pub const ARRAY_LEAST: usize = 1;

pub const ARRAY_MOST: usize = 32;

pub const FIELDS_LEAST: usize = 1;

pub const FIELDS_MOST: usize = 4;

pub const CAPACITY_LEAST: usize = 1;

pub const CAPACITY_MOST: usize = 8;

pub const PRINTED_MOST: usize = 4;

pub const PROCESSES_MOST: usize = 16;

pub const CHANNELS_MOST: usize = 16;

pub const TRAIL_MOST: usize = 32768;

pub const STEPS_MOST: usize = 2048;

pub const TABLES_ROOM: usize = 16384;

pub const STATE_ROOM: usize = 2048;

pub const PRINT_ROOM: usize = 128;

// The ceiling with number k: a constant that is not what its definition says is refused here.
pub fn ceiling(k: usize) -> usize
    ensures { result ≡ get_or ceilings k 0 }
{
    let all = [
        TEXT_MOST,
        NORMAL_MOST,
        ITEMS_MOST,
        TOKENS_MOST,
        WORD_MOST,
        STRING_MOST,
        NUMBER_MOST,
        BRACKETS_MOST,
        SELECTIONS_MOST,
        HEIGHT_MOST,
        STATEMENTS_MOST,
        MTYPES_MOST,
        PROCTYPES_MOST,
        GLOBALS_MOST,
        NUMBERS_MOST,
        ARRAY_LEAST,
        ARRAY_MOST,
        FIELDS_LEAST,
        FIELDS_MOST,
        CAPACITY_LEAST,
        CAPACITY_MOST,
        PRINTED_MOST,
        PROCESSES_MOST,
        CHANNELS_MOST,
        TRAIL_MOST,
        STEPS_MOST,
        TABLES_ROOM,
        STATE_ROOM,
        PRINT_ROOM,
    ];
    if k < all.len() { all[k] } else { 0 }
}
