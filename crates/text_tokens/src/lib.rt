// Bytes to tokens: the whole text in one pass (document 01, "The edition we read", Bytes), and places as lines and columns.
#![tactic(auto)]

ghost use Rattle.std.specs.Prelude.{◌≡◌, ◌≤◌, length};
ghost use Rattle.base_ceilings.specs.Ceilings.{text_most, tokens_most};
ghost use Rattle.text_tokens.specs.Reading.{read_from};
ghost use Rattle.text_tokens.specs.Answers.{lexing, Answered};
ghost use Rattle.text_tokens.specs.Lines.{position_of};
ghost use Rattle.text_tokens.specs.Scans.{Scanned};

use base_refusal::Refusal;
use text_pieces::Piece;

// A place as a clerk counts it, from 1.
#[derive(Drop)]
pub struct Position {
    pub line: usize,
    pub column: usize,
}

// The pass itself, and how many tokens there are, over arrays of its caller's own that have room for every token.
fn scan(
    text: &[u8],
    kinds: &mut [u8],
    starts: &mut [u32],
    ends: &mut [u32],
) -> Result<usize, Refusal>
    requires { (length text.now ≤ text_most) × (length kinds.old ≡ tokens_most) × (length starts.old ≡ tokens_most) × (length ends.old ≡ tokens_most) }
    ensures { Scanned (read_from 0 tokens_most 0 text.now) result kinds.new starts.new ends.new }
{
    let mut i: usize = 0;
    let mut n: usize = 0;
    // The step is the piece's own length, so no range counts it.
    while i < text.len() {
        let p = text_pieces::front(&text[i..]);
        match p {
            Piece::Skip(m) => {
                i += m;
            }
            Piece::Take(k, m) => {
                if n == base_ceilings::TOKENS_MOST {
                    return Err(Refusal {
                        number: 2,
                        place: i,
                        length: m,
                    });
                }
                kinds[n] = k;
                starts[n] = i as u32;
                ends[n] = (i + m) as u32;
                n += 1;
                i += m;
            }
            Piece::Stop(x, m) => {
                return Err(Refusal {
                    number: x,
                    place: i,
                    length: m,
                });
            }
        }
    }
    Ok(n)
}

// How many tokens a text has, or its refusal; and the tokens: kind, place of the first byte and place behind the last byte of each, in arrays of at least 2,048.
pub fn lex(
    text: &[u8],
    kinds: &mut [u8],
    starts: &mut [u32],
    ends: &mut [u32],
) -> Result<usize, Refusal>
    ensures { Answered (lexing text.now kinds.old starts.old ends.old) result kinds.old kinds.new starts.old starts.new ends.old ends.new }
{
    if kinds.len() < base_ceilings::TOKENS_MOST {
        return Err(Refusal::of_no_part(7));
    }
    if starts.len() < base_ceilings::TOKENS_MOST {
        return Err(Refusal::of_no_part(7));
    }
    if ends.len() < base_ceilings::TOKENS_MOST {
        return Err(Refusal::of_no_part(7));
    }
    if base_ceilings::TEXT_MOST < text.len() {
        return Err(Refusal::of_no_part(2));
    }
    let mut k = [0u8; base_ceilings::TOKENS_MOST];
    let mut s = [0u32; base_ceilings::TOKENS_MOST];
    let mut e = [0u32; base_ceilings::TOKENS_MOST];
    let n = scan(text, &mut k, &mut s, &mut e)?;
    base_bytes::copy(kinds, &k, n);
    base_bytes::copy(starts, &s, n);
    base_bytes::copy(ends, &e, n);
    Ok(n)
}

// The line and column of the byte at a place.
pub fn located(text: &[u8], place: usize) -> Position
    ensures { result ≡ position_of text.now place }
{
    let most = place.min(text.len());
    let mut line: usize = 1;
    let mut column: usize = 1;
    for b in &text[..most] {
        if *b == b'\n' {
            line += 1;
            column = 1;
        } else {
            column += 1;
        }
    }
    Position { line, column }
}
