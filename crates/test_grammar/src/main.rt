// Prints the items or the refusal of each list of kinds on standard input, a byte each.
#![tactic(auto)]

use parse_items::Parsed;

fn show(kinds: &[u8]) {
    let mut codes = [0u8; base_ceilings::ITEMS_MOST];
    let mut tokens = [0u32; base_ceilings::ITEMS_MOST];
    let mut sizes = [0u32; base_ceilings::ITEMS_MOST];
    let a = parse_items::parse(kinds, &mut codes, &mut tokens, &mut sizes);
    match a {
        Parsed::Items(n) => {
            test_cases::put(b"items");
            test_cases::number(b' ', n);
            test_cases::triples(&codes, &tokens, &sizes, n);
        }
        Parsed::Refused(x, place) => {
            test_cases::put(b"refused");
            test_cases::number(b' ', x as usize);
            test_cases::number(b' ', place);
        }
    }
    test_cases::put(b"\n");
}

fn main() {
    test_cases::for_each(&mut [0u8; 4096], |kinds| show(kinds));
}
