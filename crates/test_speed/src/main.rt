// Reads the model on standard input a hundred times, and says how often it was accepted: time it to see what one reading takes.
#![tactic(auto)]

fn is_accepted(text: &[u8]) -> bool {
    let mut tables = [0u32; 16384];
    read_entry::read(text, &mut tables).is_ok()
}

fn often(text: &[u8]) {
    let count = (0..100).filter(|_| is_accepted(text)).count();
    test_cases::put(b"accepted");
    test_cases::number(b' ', count);
    test_cases::put(b"\n");
}

fn main() {
    let mut text = [0u8; 16384];
    if let Some(n) = test_cases::next(&mut text) {
        often(&text[..n]);
    }
}
