// The section finder: where a section stands in the caller's bytes, and the section as that part of them.
ghost use Rattle.std.specs.Prelude.{◌≡◌, length};
ghost use Rattle.field.specs.Prime.{Prime};
ghost use Rattle.protocol.specs.Calls.{place_call, section_call};
ghost use Rattle.shared.specs.Answers.{place, Within};
ghost use Rattle.shared.specs.Meanings.{outcome};

use crate::layout::{SECTIONS, section_bounds};
use crate::reader::{layout_fault, section_words_fault, sizes_in};
use shared::{Place, Refusal, Row};

// Where section k stands, or the first refusal: the end (2), the trailer (3), a number above 10 (5), a word (6). A place that is
// found lies within the bytes, whatever p is.
pub fn find_section(p: u32, bytes: &[u8], k: usize) -> Result<Place, Refusal>
    ensures result_value { (q : Prime) → q.p ≡ p → outcome place result ≡ place_call q bytes.now k }
    ensures within { Within (length bytes.now) (outcome place result) }
{
    layout_fault(bytes)?;
    if SECTIONS <= k {
        return Err(Refusal(Row::List, k));
    }
    section_words_fault(p, bytes)?;
    let bounds = section_bounds(sizes_in(bytes));
    let start = bounds[k] as usize;
    let end = bounds[k + 1] as usize;
    Ok(Place {
        start,
        length: end - start,
    })
}

// Section k as that part of the caller's bytes: empty where the record is refused or has no such section.
pub fn section<'a>(p: u32, bytes: &'a [u8], k: usize) -> &'a [u8]
    ensures { (q : Prime) → q.p ≡ p → result.now ≡ section_call q bytes.now k }
{
    match find_section(p, bytes, k) {
        Ok(place) => &bytes[place.start..place.start + place.length],
        Err(_) => &bytes[..0],
    }
}
