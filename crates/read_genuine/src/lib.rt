// Are these the tables of an accepted text? They are written as a text, which is read again.
#![tactic(auto)]

ghost use Rattle.std.specs.Prelude.{◌≡◌, length};
ghost use Rattle.base_bytes.specs.Lists.{same};
ghost use Rattle.read_passes.specs.Judging.{judge_of, tables_text};
ghost use Rattle.read_genuine.specs.Genuine as spec;

// The written part of tables.
pub fn written(t: &[u32]) -> &[u32]
    ensures { result.now ≡ spec.written t.now }
{
    let n = base_bytes::least(table_layout::length_of(t), t.len());
    &t[..n]
}

// Are these the same numbers?
fn same_words(x: &[u32], y: &[u32]) -> bool
    ensures { result ≡ same x.now y.now }
{
    x == y
}

// Does a text give these numbers as its tables?
fn gives(text: &[u8], w: &[u32]) -> bool
    ensures { result ≡ spec.agrees (judge_of text.now) w.now (tables_text text.now) }
{
    let mut back = [0u32; base_ceilings::TABLES_ROOM];
    read_entry::read(text, &mut back).is_ok() && same_words(w, written(&back))
}

// Are these the tables of an accepted text?
pub fn is_genuine(t: &[u32]) -> bool
    ensures { result ≡ spec.genuine t.now }
{
    let w = written(t);
    let mut text = [0u8; base_ceilings::NORMAL_MOST];
    let n = write_texts::write_normal(w, &mut text);
    if base_ceilings::NORMAL_MOST < n {
        return false;
    }
    gives(&text[..n], w)
}
