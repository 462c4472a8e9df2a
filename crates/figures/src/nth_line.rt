// Line n of a text, put into a buffer.
ghost use Rattle.std.specs.Prelude.{[], ◌+◌, ◌≤◌, ◌<◌, length, get_or};
ghost use Rattle.text.specs.Written.{Written};
ghost use Rattle.sheet_lines.specs.Lines.{lines_of};

use text::put_bytes;

// Line n, counted from 0.
pub fn put_line(text: &[u8], n: usize, out: &mut [u8], at: usize) -> usize
    requires n_in_bounds { n < length (lines_of text.now) }
    requires n_in_bounds_2 { at + length (get_or (lines_of text.now) n []) ≤ length out.old }
    ensures { Written out.old at (get_or (lines_of text.now) n []) result out.new }
{
    let line = text.split(|b| *b == b'\n').nth(n).unwrap();
    put_bytes(line, out, at)
}
