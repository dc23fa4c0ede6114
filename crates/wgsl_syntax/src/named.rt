// Values by their names.
ghost use Rattle.std.specs.Prelude.{◌≡◌, map};
ghost use Rattle.wgsl_syntax.specs.Names.{named, row_of};

/// The value with this name in a table.
pub(crate) fn value_named<T: Copy>(rows: &[(T, &'static str)], word: &str) -> Option<T>
    ensures { result ≡ named (map row_of rows.now) word.now }
{
    for (value, name) in rows {
        if word == *name {
            return Some(*value);
        }
    }
    None
}
