// Every pass of the reader in its order, and the tables of a text that all of them let through.
#![tactic(auto)]

ghost use Rattle.std.specs.Prelude.{◌≡◌, length, replicate};
ghost use Rattle.base_ceilings.specs.Ceilings.{items_most};
ghost use Rattle.link_items.specs.Links.{links_of};
ghost use Rattle.table_entries.specs.Sources.{entries_of};
ghost use Rattle.table_layout.specs.Tables.{tables_of};
ghost use Rattle.read_passes.specs.Judging.{at_token, by_rules, by_grammar, pass_of, is_wide, wide_text, judge_of, laid, left, tables_from, tables_at, tables_text};

use base_refusal::Refusal;
use parse_items::Parsed;
use rule_least::Fault;

// Room for the tables of any text of the grammar, whatever names and strings it holds.
const WIDE_ROOM: usize = 2 * base_ceilings::TABLES_ROOM;

// A refusal at a token, or at the end of a text of n bytes.
fn at_token(n: usize, starts: &[u32], ends: &[u32], x: u8, k: usize) -> Refusal
    ensures { result ≡ at_token n starts.now ends.now x k }
{
    if k < starts.len() {
        let from = base_bytes::word_at(starts, k);
        let to = base_bytes::word_at(ends, k);
        return Refusal {
            number: x,
            place: from,
            length: base_bytes::minus(to, from),
        };
    }
    Refusal {
        number: x,
        place: n,
        length: 0,
    }
}

// The tables, laid at the front of out.
fn lay(
    text: &[u8],
    starts: &[u32],
    ends: &[u32],
    codes: &[u8],
    toks: &[u32],
    args: &[u32],
    out: &mut [u32],
)
    ensures { out.new ≡ laid (tables_of (entries_of text.now starts.now ends.now codes.now toks.now) (links_of codes.now args.now (replicate items_most 0))) out.old }
{
    let mut links = [0u32; base_ceilings::ITEMS_MOST];
    link_items::fill_links(codes, args, &mut links);
    table_layout::build(text, starts, ends, codes, toks, &links, out);
}

// Names, rules and ceilings of a text whose grammar is right.
fn by_rules(
    text: &[u8],
    starts: &[u32],
    ends: &[u32],
    codes: &[u8],
    toks: &[u32],
    out: &mut [u32],
) -> Result<(), Refusal>
    ensures value { result ≡ by_rules text.now starts.now ends.now codes.now toks.now }
    ensures out_after { out.new ≡ left result (tables_from text.now starts.now ends.now codes.now toks.now) out.old }
{
    let mut args = [0u32; base_ceilings::ITEMS_MOST];
    rule_sheets::fill_args(text, starts, ends, codes, toks, &mut args);
    let f = rule_least::check(codes, &args, toks);
    match f {
        Fault::At(x, k) => Err(at_token(text.len(), starts, ends, x, k)),
        Fault::None => {
            if rule_ceilings::passed(codes, &args) {
                return Err(Refusal::of_no_part(6));
            }
            lay(text, starts, ends, codes, toks, &args, out);
            Ok(())
        }
    }
}

// Grammar, and then the rest.
fn by_grammar(
    text: &[u8],
    kinds: &[u8],
    starts: &[u32],
    ends: &[u32],
    out: &mut [u32],
) -> Result<(), Refusal>
    ensures value { result ≡ by_grammar text.now kinds.now starts.now ends.now }
    ensures out_after { out.new ≡ left result (tables_at text.now kinds.now starts.now ends.now) out.old }
{
    let mut codes = [0u8; base_ceilings::ITEMS_MOST];
    let mut toks = [0u32; base_ceilings::ITEMS_MOST];
    let mut sizes = [0u32; base_ceilings::ITEMS_MOST];
    let p = parse_items::parse(kinds, &mut codes, &mut toks, &mut sizes);
    match p {
        Parsed::Items(n) => {
            let m = base_bytes::least(n, base_ceilings::ITEMS_MOST);
            by_rules(text, starts, ends, &codes[..m], &toks[..m], out)
        }
        Parsed::Refused(x, k) => Err(at_token(text.len(), starts, ends, x, k)),
    }
}

// Every pass in its order; the tables of a text that all let through at the front of out, as far as it reaches.
fn through(text: &[u8], out: &mut [u32]) -> Result<(), Refusal>
    ensures value { result ≡ pass_of text.now }
    ensures out_after { out.new ≡ left result (tables_text text.now) out.old }
{
    let mut kinds = [0u8; base_ceilings::TOKENS_MOST];
    let mut starts = [0u32; base_ceilings::TOKENS_MOST];
    let mut ends = [0u32; base_ceilings::TOKENS_MOST];
    let n = text_tokens::lex(text, &mut kinds, &mut starts, &mut ends)?;
    let m = base_bytes::least(n, base_ceilings::TOKENS_MOST);
    by_grammar(text, &kinds[..m], &starts[..m], &ends[..m], out)
}

// Is the normal text of a text that all passes let through too long?
fn writes_wide(text: &[u8]) -> bool
    ensures { result ≡ is_wide (pass_of text.now) (tables_text text.now) }
{
    let mut tables = [0u32; WIDE_ROOM];
    if through(text, &mut tables).is_err() {
        return false;
    }
    let n = base_bytes::least(table_layout::length_of(&tables), WIDE_ROOM);
    write_length::is_overlong(&tables[..n])
}

// The same; no text is shorter than its normal text, so only a longer one is read to find out.
fn is_wide(text: &[u8]) -> bool
    ensures { result ≡ wide_text text.now }
{
    if text.len() <= base_ceilings::NORMAL_MOST {
        return false;
    }
    writes_wide(text)
}

// Is this a model? If not, why. Every pass in its order, and then the length of its normal text; the tables of an accepted text at the front of out, as far as it reaches.
pub fn pass(text: &[u8], out: &mut [u32]) -> Result<(), Refusal>
    ensures value { result ≡ judge_of text.now }
    ensures out_after { out.new ≡ left result (tables_text text.now) out.old }
{
    if is_wide(text) {
        return Err(Refusal::of_no_part(6));
    }
    through(text, out)
}
