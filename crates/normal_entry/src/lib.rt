// The entries that write normal text: of a model's text, and of tables.
#![tactic(auto)]

ghost use Rattle.std.specs.Prelude.{◌≡◌, ◌≤◌, length};
ghost use Rattle.base_ceilings.specs.Ceilings.{normal_most};
ghost use Rattle.write_texts.specs.Normal.{normal_of};
ghost use Rattle.normal_entry.specs.Entries.{roomy, put, answer_of, left_of, answer_from, left_from};

use base_refusal::Refusal;

// How long the normal text of the tables w is, and the text itself, if there is room for it.
fn lay(w: &[u32], out: &mut [u8]) -> Result<usize, Refusal>
    requires { length (normal_of w.now) ≤ normal_most }
    ensures value { result ≡ roomy (normal_of w.now) out.old }
    ensures out_after { out.new ≡ put result (normal_of w.now) out.old }
{
    let mut text = [0u8; base_ceilings::NORMAL_MOST];
    let n = write_texts::write_normal(w, &mut text);
    if out.len() < n {
        return Err(Refusal::of_no_part(7));
    }
    base_bytes::copy(out, &text, n);
    Ok(n)
}

// The normal text of a model.
pub fn normal(text: &[u8], out: &mut [u8]) -> Result<usize, Refusal>
    ensures value { result ≡ answer_of text.now out.old }
    ensures out_after { out.new ≡ left_of text.now out.old }
{
    let mut tables = [0u32; base_ceilings::TABLES_ROOM];
    read_entry::read(text, &mut tables)?;
    lay(read_genuine::written(&tables), out)
}

// The normal text that tables hold.
pub fn normal_of(tables: &[u32], out: &mut [u8]) -> Result<usize, Refusal>
    ensures value { result ≡ answer_from tables.now out.old }
    ensures out_after { out.new ≡ left_from tables.now out.old }
{
    if tables.len() < base_ceilings::TABLES_ROOM {
        return Err(Refusal::of_no_part(7));
    }
    if read_genuine::is_genuine(tables) {
        return lay(read_genuine::written(tables), out);
    }
    Err(Refusal::of_no_part(8))
}
