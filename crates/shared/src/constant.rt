// Column 0 is the constant 1 (document 02, request 2): the first word of an assignment and of the public words.
ghost use Rattle.std.specs.Prelude.{◌≡◌};
ghost use Rattle.protocol.specs.Refusals.{begins_with_one, constant_refusal};
ghost use Rattle.shared.specs.Meanings.{refusal_in};

use crate::{Refusal, Row};

pub fn begins_with_one(words: &[u32]) -> bool
    ensures { result ≡ begins_with_one words.now }
{
    words.first() == Some(&1)
}

// 13: the first word is not 1.
pub fn judge_constant(words: &[u32]) -> Result<(), Refusal>
    ensures { refusal_in result ≡ constant_refusal words.now }
{
    if begins_with_one(words) {
        Ok(())
    } else {
        Err(Refusal(Row::Constant, 0))
    }
}
