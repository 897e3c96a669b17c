// How deep brackets and selections nest, over the kinds of tokens: the ceilings that are judged beside the grammar.
#![tactic(auto)]

ghost use Rattle.std.specs.Prelude.{◌≡◌, ◌-◌, ◌≤◌, length, leb};
ghost use Rattle.std.specs.Bool.{then_some};
ghost use Rattle.base_ceilings.specs.Ceilings.{brackets_most};
ghost use Rattle.parse_machine.specs.Depth.{brackets, selections, too_deep};

// How many brackets are open after a token, where n were open before it.
fn brackets(k: u8, n: usize) -> usize
    requires { n ≤ brackets_most }
    ensures { result ≡ brackets k n }
{
    match k {
        base_kinds::OPEN_ROUND | base_kinds::OPEN_SQUARE | base_kinds::OPEN_BRACE => n + 1,
        base_kinds::CLOSE_ROUND | base_kinds::CLOSE_SQUARE | base_kinds::CLOSE_BRACE => {
            base_bytes::minus(n, 1)
        }
        _ => n,
    }
}

// The same for selections.
fn selections(k: u8, n: usize) -> usize
    requires { n ≤ brackets_most }
    ensures { result ≡ selections k n }
{
    match k {
        base_kinds::DO | base_kinds::IF => n + 1,
        base_kinds::FI | base_kinds::OD => base_bytes::minus(n, 1),
        _ => n,
    }
}

// The place of the first token that is too deep.
pub fn first_too_deep(kinds: &[u8]) -> Option<usize>
    ensures { result ≡ then_some (leb (too_deep kinds.now) (length kinds.now)) (too_deep kinds.now) }
{
    let mut b: usize = 0;
    let mut s: usize = 0;
    for (i, k) in kinds.iter().enumerate() {
        b = brackets(*k, b);
        s = selections(*k, s);
        if b > base_ceilings::BRACKETS_MOST {
            return Some(i);
        }
        if s > base_ceilings::SELECTIONS_MOST {
            return Some(i);
        }
    }
    None
}
