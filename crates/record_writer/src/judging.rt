// What refuses a call to write a record: its sizes, the lengths of its sections and of the lent bytes, its words.
ghost use Rattle.std.specs.Prelude.{◌≡◌, map, ◌<◌, ◌^◌, length};
ghost use Rattle.shared.specs.Meanings.{refusal_in, sizes as sizesMeaning};
ghost use Rattle.record.specs.Layout.{Allowed, byte_count};
ghost use Rattle.record_writer.specs.Sections.{lists, joined, length_refusals, shape_refusal, refuse_words};

use record::layout::{SECTIONS, TRAILER_BYTES, section_bounds, section_lengths};
use shared::scans::judge_words;
use shared::six_sizes::judge_sizes;
use shared::{Refusal, Row, Sizes};

// The lengths of the sections and of the lent bytes against those that the sizes give.
fn lengths_fault(s: Sizes, sections: &[&[u32]; SECTIONS], lent: usize) -> Result<(), Refusal>
    requires { Allowed (sizesMeaning s) }
    ensures { refusal_in result ≡ length_refusals (sizesMeaning s) (map length (lists sections.now)) lent }
{
    let due = section_lengths(s);
    let bounds = section_bounds(s);
    for (k, words) in sections.iter().enumerate() {
        if words.len() != due[k] {
            return Err(Refusal(Row::List, k));
        }
    }
    if lent != bounds[SECTIONS] as usize + TRAILER_BYTES {
        return Err(Refusal(Row::List, SECTIONS));
    }
    Ok(())
}

// The sizes, then the lengths.
pub fn shape_fault(s: Sizes, sections: &[&[u32]; SECTIONS], lent: usize) -> Result<(), Refusal>
    ensures { refusal_in result ≡ shape_refusal (sizesMeaning s) (map length (lists sections.now)) lent }
{
    judge_sizes(Row::Size, 0, s)?;
    lengths_fault(s, sections, lent)
}

// The words of all sections, in order.
pub fn sections_fault(p: u32, sections: &[&[u32]; SECTIONS]) -> Result<(), Refusal>
    requires { byte_count (map length (lists sections.now)) < 2 ^ 32 }
    ensures { refusal_in result ≡ refuse_words p 0 (joined (lists sections.now)) }
{
    let mut start = 0;
    for words in sections {
        judge_words(p, start, words)?;
        start += words.len();
    }
    Ok(())
}
