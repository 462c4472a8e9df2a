// The words of an entry put in among others, and taken out: one pass over the words after it.
ghost use Rattle.std.specs.Prelude.{◌≡◌, ◌+◌, ◌≤◌, length};
ghost use Rattle.protocol.specs.Grown.{inserted, removed};

// An entry put in at `from`; the words from there up to `to` move on by three.
pub fn insert_entry(words: &mut [u32], from: usize, to: usize, row: u32, column: u32, value: u32)
    requires { (from ≤ to) × (to + 3 ≤ length words.old) }
    ensures { words.new ≡ inserted words.old from to (record { row = row; column = column; value = value }) }
{
    words.copy_within(from..to, from + 3);
    words[from..from + 3].copy_from_slice(&[row, column, value]);
}

// The entry at `from` taken out; the words after it up to `to` move back by three, and zeros stand after them.
pub fn remove_entry(words: &mut [u32], from: usize, to: usize)
    requires { (from + 3 ≤ to) × (to ≤ length words.old) }
    ensures { words.new ≡ removed words.old from to }
{
    words.copy_within(from + 3..to, from);
    words[to - 3..to].fill(0);
}
