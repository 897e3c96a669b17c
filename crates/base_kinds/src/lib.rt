// The kinds of tokens, as numbers: what each number spells is in specs/Kinds.antt, the one place that says so.
// 1 to 18 are the binary operators, numbered so that ranges give their binding levels; 38 to 45 the types, so that ranges give their widths.
#![tactic(auto)]

// Past the last token.
pub const END: u8 = 0;

// Marks.
pub const OR_ELSE: u8 = 1;

pub const AND_THEN: u8 = 2;

pub const BIT_OR: u8 = 3;

pub const BIT_XOR: u8 = 4;

pub const BIT_AND: u8 = 5;

pub const EQUAL: u8 = 6;

pub const UNEQUAL: u8 = 7;

pub const LESS: u8 = 8;

pub const AT_MOST: u8 = 9;

pub const MORE: u8 = 10;

pub const AT_LEAST: u8 = 11;

pub const SHIFT_LEFT: u8 = 12;

pub const SHIFT_RIGHT: u8 = 13;

pub const PLUS: u8 = 14;

pub const MINUS: u8 = 15;

pub const TIMES: u8 = 16;

pub const OVER: u8 = 17;

pub const REST: u8 = 18;

pub const BANG: u8 = 19;

pub const TILDE: u8 = 20;

pub const OPEN_ROUND: u8 = 21;

pub const CLOSE_ROUND: u8 = 22;

pub const OPEN_SQUARE: u8 = 23;

pub const CLOSE_SQUARE: u8 = 24;

pub const OPEN_BRACE: u8 = 25;

pub const CLOSE_BRACE: u8 = 26;

pub const COMMA: u8 = 27;

pub const SEMICOLON: u8 = 28;

pub const COLON: u8 = 29;

pub const OPTION: u8 = 30;

pub const ARROW: u8 = 31;

pub const ASSIGN: u8 = 32;

pub const INCREMENT: u8 = 33;

pub const DECREMENT: u8 = 34;

pub const QUERY: u8 = 35;

pub const BANG_BANG: u8 = 36;

pub const QUERY_QUERY: u8 = 37;

// Keywords.
pub const BIT: u8 = 38;

pub const BOOL: u8 = 39;

pub const BYTE: u8 = 40;

pub const MTYPE: u8 = 41;

pub const PID: u8 = 42;

pub const CHAN: u8 = 43;

pub const SHORT: u8 = 44;

pub const INT: u8 = 45;

pub const ACTIVE: u8 = 46;

pub const ASSERT: u8 = 47;

pub const BREAK: u8 = 48;

pub const DO: u8 = 49;

pub const ELSE: u8 = 50;

pub const EVAL: u8 = 51;

pub const FALSE: u8 = 52;

pub const FI: u8 = 53;

pub const GOTO: u8 = 54;

pub const IF: u8 = 55;

pub const INIT: u8 = 56;

pub const LEN: u8 = 57;

pub const OD: u8 = 58;

pub const OF: u8 = 59;

pub const PRINTF: u8 = 60;

pub const PROCTYPE: u8 = 61;

pub const RUN: u8 = 62;

pub const SKIP: u8 = 63;

pub const TIMEOUT: u8 = 64;

pub const TRUE: u8 = 65;

pub const ATOMIC: u8 = 66;

pub const D_STEP: u8 = 67;

pub const TYPEDEF: u8 = 68;

pub const UNLESS: u8 = 69;

// What is no fixed spelling.
pub const NAME: u8 = 70;

pub const NUMBER: u8 = 71;

pub const STRING: u8 = 72;
