// Prints whether each text on standard input is accepted, or its refusal.
#![tactic(auto)]

fn show(text: &[u8]) {
    let mut tables = [0u32; 16384];
    let j = read_entry::read(text, &mut tables);
    match j {
        Ok(()) => {
            test_cases::put(b"accepted");
        }
        Err(r) => {
            test_cases::put(b"refused");
            test_cases::number(b' ', r.number as usize);
            test_cases::number(b' ', r.place);
            test_cases::number(b' ', r.length);
        }
    }
    test_cases::put(b"\n");
}

fn main() {
    test_cases::for_each(&mut [0u8; 16384], |text| show(text));
}
