// The items' codes and the sets that they are in, for code; specs/Codes.antt and specs/Sets.antt say so for definitions.
#![tactic(auto)]

ghost use Rattle.std.specs.Prelude.{◌≡◌};
ghost use Rattle.base_codes.specs.Sets as sets;

pub const NAME: u8 = 70;

pub const NUMBER: u8 = 71;

pub const TEXT: u8 = 72;

pub const OR_ELSE: u8 = 147;

pub const AND_THEN: u8 = 148;

pub const BIT_OR: u8 = 149;

pub const BIT_XOR: u8 = 150;

pub const BIT_AND: u8 = 151;

pub const SAME: u8 = 152;

pub const DIFFER: u8 = 153;

pub const LESS: u8 = 154;

pub const AT_MOST: u8 = 155;

pub const MORE: u8 = 156;

pub const AT_LEAST: u8 = 157;

pub const SHIFT_LEFT: u8 = 158;

pub const SHIFT_RIGHT: u8 = 159;

pub const ADD: u8 = 160;

pub const SUBTRACT: u8 = 161;

pub const MULTIPLY: u8 = 162;

pub const DIVIDE: u8 = 163;

pub const REMAINDER: u8 = 164;

pub const NEGATE: u8 = 165;

pub const NOT: u8 = 166;

pub const COMPLEMENT: u8 = 167;

pub const BIT: u8 = 168;

pub const BOOL: u8 = 169;

pub const BYTE: u8 = 170;

pub const MTYPE: u8 = 171;

pub const PID: u8 = 172;

pub const CHAN: u8 = 173;

pub const SHORT: u8 = 174;

pub const INT: u8 = 175;

pub const PLAIN: u8 = 176;

pub const INDEX: u8 = 177;

pub const TRUE: u8 = 178;

pub const FALSE: u8 = 179;

pub const LEN: u8 = 180;

pub const OTHERWISE: u8 = 181;

pub const CHOICE: u8 = 182;

pub const ARGUMENT: u8 = 183;

pub const INTO: u8 = 184;

pub const EQUAL: u8 = 185;

pub const CONSTANT: u8 = 186;

pub const END: u8 = 187;

pub const LABEL: u8 = 188;

pub const EXPRESS: u8 = 189;

pub const TARGET: u8 = 190;

pub const ASSIGN: u8 = 191;

pub const INCREMENT: u8 = 192;

pub const DECREMENT: u8 = 193;

pub const SEND: u8 = 194;

pub const RECEIVE: u8 = 195;

pub const ASSERT: u8 = 196;

pub const SKIP: u8 = 197;

pub const GOTO: u8 = 198;

pub const BREAK: u8 = 199;

pub const TIMEOUT: u8 = 200;

pub const ELSE: u8 = 201;

pub const RUN: u8 = 202;

pub const SET_RUN: u8 = 203;

pub const IF: u8 = 204;

pub const FI: u8 = 205;

pub const DO: u8 = 206;

pub const OD: u8 = 207;

pub const OPTION: u8 = 208;

pub const END_OPTION: u8 = 209;

pub const LOCAL: u8 = 210;

pub const GLOBAL: u8 = 211;

pub const DECLARED: u8 = 212;

pub const SIZE: u8 = 213;

pub const VALUE: u8 = 214;

pub const MINUS: u8 = 215;

pub const NAMED: u8 = 216;

pub const CHANNEL: u8 = 217;

pub const FIELD: u8 = 218;

pub const MTYPES: u8 = 219;

pub const MESSAGE: u8 = 220;

pub const GROUP: u8 = 221;

pub const PARAMETER: u8 = 222;

pub const PROCTYPE: u8 = 223;

pub const ACTIVE: u8 = 224;

pub const ACTIVE_MANY: u8 = 225;

pub const INIT: u8 = 226;

pub const BODY: u8 = 227;

pub const END_BODY: u8 = 228;

pub const END_CLOSED: u8 = 229;

pub fn within(lo: u8, hi: u8, c: u8) -> bool
    ensures { result ≡ sets.within lo hi c }
{
    lo <= c && c <= hi
}

// Is an item part of an expression?
#[tactic(auto, unfolding(crate::specs::Sets::is_part))]
pub fn is_part(c: u8) -> bool
    ensures { result ≡ sets.is_part c }
{
    within(NAME, NUMBER, c) || within(OR_ELSE, COMPLEMENT, c) || within(PLAIN, CHOICE, c)
}

// Does a statement begin with this mark of its own?
#[tactic(auto, unfolding(crate::specs::Sets::is_alone))]
pub fn is_alone(c: u8) -> bool
    ensures { result ≡ sets.is_alone c }
{
    c == TEXT || c == SKIP || within(BREAK, ELSE, c) || c == IF || c == DO
}

// Is this the mark of a statement that begins with a phrase?
#[tactic(auto, unfolding(crate::specs::Sets::is_lead))]
pub fn is_lead(c: u8) -> bool
    ensures { result ≡ sets.is_lead c }
{
    within(EXPRESS, TARGET, c) || within(INCREMENT, ASSERT, c) || c == GOTO || c == RUN
}

// Does it begin a list of arguments?
#[tactic(auto, unfolding(crate::specs::Sets::is_opener))]
pub fn is_opener(c: u8) -> bool
    ensures { result ≡ sets.is_opener c }
{
    c == TEXT || within(SEND, RECEIVE, c) || within(RUN, SET_RUN, c)
}

// Is it the one item that each statement has of its own?
#[tactic(auto, unfolding(crate::specs::Sets::is_statement))]
pub fn is_statement(c: u8) -> bool
    ensures { result ≡ sets.is_statement c }
{
    c == TEXT || c == EXPRESS || within(ASSIGN, IF, c) || c == DO
}
