// Reading a table at any place: past its end there is 0.
ghost use Rattle.std.specs.Prelude.{◌≡◌, get_or};

pub fn entry(table: &[u8], i: usize) -> u8
    ensures { result ≡ get_or table.now i 0 }
{
    table.get(i).copied().unwrap_or(0)
}
