ghost use Rattle.std.specs.Prelude.{◌≡◌, ◌≤◌, ◌<◌, List, ℕ, length, take};
ghost use Rattle.std.specs.Str.{encode_utf8_all};
ghost use Rattle.hv_tree.specs.Place.{line_of, column_of, column_after, begins_character};

/// A byte of the source, by its offset.
#[derive(Clone, Copy, Debug, PartialEq, Eq, PartialOrd, Ord)]
pub struct Place {
    pub start: u32,
}

// Whether a character begins with this byte.
fn begins_character(byte: u8) -> bool
    ensures { result ≡ begins_character byte }
{
    byte < 128 || byte >= 192
}

/// The line and the column of a place, both from 1. A place behind the end counts as the end.
pub fn line_col(source: &[u8], at: Place) -> (u32, u32)
    requires { length source.now < 4294967295 }
    ensures line { result.0 ≡ line_of source.now at.start }
    ensures column { result.1 ≡ column_of source.now at.start }
    ensures characters { (characters : List ℕ) → encode_utf8_all characters ≡ take at.start source.now → result.1 ≡ column_after characters }
{
    let mut line = 1;
    let mut column = 1;
    let end = source.len().min(at.start as usize);
    for byte in &source[..end] {
        if *byte == b'\n' {
            line += 1;
            column = 1;
        } else if begins_character(*byte) {
            column += 1;
        }
    }
    (line, column)
}
