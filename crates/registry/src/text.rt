// A text in a field: its length, its octets, and 0 after them.
ghost use Rattle.std.specs.Prelude.{◌≡◌, ◌-◌, ◌≤◌, ◌<◌, length};
ghost use Rattle.registry.specs.Records.{text_field};
ghost use Rattle.registry.specs.Tests.{is_named, TextEnd, is_field};

// The octets of the field of a label or a destination.
pub(crate) const FIELD: usize = 33;

// Whether a text is laid out in a field: at least one octet, and 0 after it.
pub(crate) fn is_text(field: &[u8]) -> bool
    requires { length field.now ≤ 256 }
    ensures { result ≡ is_field field.now }
{
    if field.len() == 0 {
        return false;
    }
    let len = usize::from(field[0]);
    if len == 0 {
        return false;
    }
    if field.len() <= len {
        return false;
    }
    stores::is_zero_from(&field[1..], field[0])
}

// Where the text that a row begins with ends.
pub(crate) fn text_end(row: &[u8]) -> usize
    requires { 0 < length row.now }
    ensures { TextEnd row.now result }
{
    let end = usize::from(row[0]) + 1;
    end.min(row.len())
}

// Whether a row begins with that text; with an empty one, whether it is free.
pub(crate) fn is_named(row: &[u8], name: &[u8]) -> bool
    requires { 0 < length row.now }
    ensures { result ≡ is_named name.now row.now }
{
    let end = text_end(row);
    stores::is_same(&row[1..end], name)
}

// A text laid out in a field.
pub(crate) fn put_text(field: &mut [u8], text: &[u8])
    requires { (length text.now < length field.old) × (length text.now < 256) }
    ensures { field.new ≡ text_field (length field.old - 1) text.now }
{
    // Fewer than 256: a `try_from` would have a branch that never runs.
    field[0] = text.len() as u8;
    stores::fill(&mut field[1..], text);
}
