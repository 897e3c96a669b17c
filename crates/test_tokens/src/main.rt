// Prints the tokens or the refusal of each text on standard input.
#![tactic(auto)]

fn show(text: &[u8]) {
    let mut kinds = [0u8; 2048];
    let mut starts = [0u32; 2048];
    let mut ends = [0u32; 2048];
    let a = text_tokens::lex(text, &mut kinds, &mut starts, &mut ends);
    match a {
        Ok(n) => {
            test_cases::put(b"tokens");
            test_cases::number(b' ', n);
            test_cases::triples(&kinds, &starts, &ends, n);
        }
        Err(r) => {
            let p = text_tokens::located(text, r.place);
            test_cases::put(b"refused");
            test_cases::number(b' ', r.number as usize);
            test_cases::number(b' ', r.place);
            test_cases::number(b' ', r.length);
            test_cases::put(b" line");
            test_cases::number(b' ', p.line);
            test_cases::put(b" column");
            test_cases::number(b' ', p.column);
        }
    }
    test_cases::put(b"\n");
}

fn main() {
    test_cases::for_each(&mut [0u8; 16384], |text| show(text));
}
