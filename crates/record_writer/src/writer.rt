// The writer: the sections one after the other into the lent bytes, then the trailer.
ghost use Rattle.std.specs.Prelude.{◌≡◌, ◌++◌, map, ◌+◌, ◌*◌, ◌≤◌, length, take};
ghost use Rattle.field.specs.Prime.{Prime};
ghost use Rattle.protocol.specs.Refusals.{trailer_bytes};
ghost use Rattle.protocol.specs.Record.{word_bytes, bytes_of, trailer, write_record};
ghost use Rattle.protocol.specs.Calls.{write_call};
ghost use Rattle.shared.specs.Meanings.{refusal_in, sizes as sizesMeaning};
ghost use Rattle.record.specs.Layout.{Allowed, byte_count};
ghost use Rattle.shared.specs.Answers.{LentAnswer};
ghost use Rattle.record_writer.specs.Sections.{each_section, lists};

use crate::judging::{sections_fault, shape_fault};
use record::layout::{SECTIONS, TRAILER_WORDS, WORD_BYTES, section_bounds};
use shared::{Refusal, Sizes};

// The four bytes of a word.
fn put_word(out: &mut [u8], at: usize, word: u32)
    requires { at + 4 ≤ length out.old }
    ensures { take (at + 4) out.new ≡ take at out.old ++ word_bytes word }
{
    out[at..at + WORD_BYTES].copy_from_slice(&word.to_le_bytes());
}

// The bytes of words from a place on; the place after them.
fn put_words(out: &mut [u8], at: usize, ws: &[u32]) -> usize
    requires { at + 4 * length ws.now ≤ length out.old }
    ensures value { result ≡ at + 4 * length ws.now }
    ensures out_after { take result out.new ≡ take at out.old ++ bytes_of ws.now }
{
    let mut next = at;
    for word in ws {
        put_word(out, next, *word);
        next += WORD_BYTES;
    }
    next
}

// The trailer: the eleven starts, the six sizes, the start of the trailer.
fn trailer_words(s: Sizes) -> [u32; TRAILER_WORDS]
    requires { Allowed (sizesMeaning s) }
    ensures { result ≡ trailer (sizesMeaning s) }
{
    let k = s.k;
    let [w, m, h0, sums, g1, h1, o, ga, gb, gc, h2, end] = section_bounds(s);
    [
        w, m, h0, sums, g1, h1, o, ga, gb, gc, h2, s.r, s.c, s.x, k.a, k.b, k.c, end,
    ]
}

// The whole record: the sections one after the other, then the trailer.
fn fill_record(sizes: Sizes, sections: &[&[u32]; SECTIONS], out: &mut [u8])
    requires allowed { Allowed (sizesMeaning sizes) }
    requires trailer_bytes_value { byte_count (map length (lists sections.now)) + trailer_bytes ≡ length out.old }
    ensures { out.new ≡ write_record (sizesMeaning sizes) (lists sections.now) }
{
    let mut at = 0;
    for words in sections {
        at = put_words(out, at, words);
    }
    put_words(out, at, &trailer_words(sizes));
}

// A record of eleven sections into the lent bytes: refusals 4 (sizes), 5 (lengths, the lent bytes last), 6 (words).
pub fn write(
    p: u32,
    sizes: Sizes,
    w: &[u32],
    m: &[u32],
    h0: &[u32],
    s: &[u32],
    g1: &[u32],
    h1: &[u32],
    o: &[u32],
    ga: &[u32],
    gb: &[u32],
    gc: &[u32],
    h2: &[u32],
    out: &mut [u8],
) -> Result<(), Refusal>
    ensures { (q : Prime) → q.p ≡ p
        → LentAnswer (write_call q (sizesMeaning sizes)
        (each_section w.now m.now h0.now s.now g1.now
        h1.now o.now ga.now gb.now gc.now h2.now)
        (length out.old)) (refusal_in result) out.old out.new }
{
    let sections = [w, m, h0, s, g1, h1, o, ga, gb, gc, h2];
    shape_fault(sizes, &sections, out.len())?;
    sections_fault(p, &sections)?;
    fill_record(sizes, &sections, out);
    Ok(())
}
