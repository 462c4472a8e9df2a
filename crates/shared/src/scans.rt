// Rows of the table of refusals: scans that stop at the first failure, and count its position from the one given. Each is a loop of its own:
// over an iterator's `position` the goal `returns-in-Some` does not close.
ghost use Rattle.std.specs.Prelude.{◌≡◌, map, ◌<◌, ◌^◌, ltb};
ghost use Rattle.protocol.specs.Refusals.{refuse};
ghost use Rattle.shared.specs.Meanings.{row_number, refusal_in};

use crate::{Refusal, Row};

// The first test that fails.
pub fn first_failed(row: Row, position: usize, tests: &[bool]) -> Result<(), Refusal>
    requires { position < 2 ^ 32 }
    ensures { refusal_in result ≡ refuse (row_number row) position tests.now }
{
    for (i, passes) in tests.iter().enumerate() {
        if !*passes {
            return Err(Refusal(row, position + i));
        }
    }
    Ok(())
}

// 6: the first word of p or more.
pub fn judge_words(p: u32, position: usize, words: &[u32]) -> Result<(), Refusal>
    requires { position < 2 ^ 32 }
    ensures { refusal_in result ≡ refuse 6 position (map (λ w. ltb w p) words.now) }
{
    for (i, word) in words.iter().enumerate() {
        if p <= *word {
            return Err(Refusal(Row::Word, position + i));
        }
    }
    Ok(())
}
