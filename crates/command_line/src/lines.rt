//! Lines, as they are read.
ghost use Rattle.std.specs.Prelude.{◌≡◌};
ghost use Rattle.std.specs.Char.{is_ascii_whitespace};
ghost use Rattle.std.specs.List.{list_all};
ghost use Rattle.command_line.specs.Lines.{without_ending, without_last};

// Removes this byte if it is the last.
fn cut_last(line: &mut Vec<u8>, byte: u8)
    ensures cut { line.new.items ≡ without_last byte line.old.items }
{
    if line.as_slice().last().copied() == Some(byte) {
        line.pop();
    }
}

/// Removes the bytes that end a line: a line feed, and then a carriage return.
///
/// Does not allocate.
pub fn cut_ending(line: &mut Vec<u8>)
    ensures cut { line.new.items ≡ without_ending line.old.items }
{
    cut_last(line, b'\n');
    cut_last(line, b'\r');
}

/// Returns whether a line contains only ASCII whitespace. Does not allocate.
pub fn is_blank(line: &[u8]) -> bool
    ensures blank { result ≡ list_all is_ascii_whitespace line.now }
{
    line.iter().all(|byte| byte.is_ascii_whitespace())
}
