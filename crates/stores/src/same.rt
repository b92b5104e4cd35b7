// Whether two rows are the same.
ghost use Rattle.std.specs.Prelude.{◌≡◌};
ghost use Rattle.headers.specs.Rows.{same};

// Whether two rows are the same. No octet ends the loop, so that it is compiled to look at many at a time: rows of one store are often
// alike but for their ends.
pub fn is_same(a: &[u8], b: &[u8]) -> bool
    ensures { result ≡ same a.now b.now }
{
    if a.len() != b.len() {
        return false;
    }
    let mut alike = true;
    for (x, y) in a.iter().zip(b) {
        alike = alike & (*x == *y);
    }
    alike
}
