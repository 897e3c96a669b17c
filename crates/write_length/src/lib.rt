// Is the normal text of tables longer than a normal text may be?
#![tactic(auto)]

ghost use Rattle.std.specs.Prelude.{◌≡◌};
ghost use Rattle.write_length.specs.Overlong.{overlong};

pub fn is_overlong(tables: &[u32]) -> bool
    ensures { result ≡ overlong tables.now }
{
    let mut text = [0u8; base_ceilings::NORMAL_MOST];
    let n = write_texts::write_normal(tables, &mut text);
    base_ceilings::NORMAL_MOST < n
}
