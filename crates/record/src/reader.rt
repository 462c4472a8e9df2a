// The reader: a record from its end, then its trailer, then its words.
ghost use Rattle.std.specs.Prelude.{◌≡◌, ◌+◌, ◌-◌, ◌*◌, ◌/◌, ◌≤◌, ◌<◌, length};
ghost use Rattle.std.proofs.Math.Option.{none};
ghost use Rattle.field.specs.Prime.{Prime};
ghost use Rattle.protocol.specs.Refusals.{trailer_bytes};
ghost use Rattle.protocol.specs.Record.{word_at, trailer_word, sizes_read, end_row, trailer_row, word_row, read_record};
ghost use Rattle.shared.specs.Meanings.{refusal_in, outcome, sizes as sizesMeaning};
ghost use Rattle.record.specs.Answers.{sizes_found};
ghost use Rattle.record.specs.Layout.{Allowed, starts_refusal, layout_refusal};

use crate::layout::{SECTIONS, TRAILER_BYTES, TRAILER_WORDS, WORD_BYTES, section_bounds};
use shared::six_sizes::judge_sizes;
use shared::{Refusal, Row, Sizes, Triple};

// Word i of the bytes.
pub fn word_at(bytes: &[u8], i: usize) -> u32
    requires { 4 * i + 4 ≤ length bytes.now }
    ensures { result ≡ word_at bytes.now i }
{
    let at = WORD_BYTES * i;
    u32::from_le_bytes([bytes[at], bytes[at + 1], bytes[at + 2], bytes[at + 3]])
}

// The count of the words before the trailer, which are those of the sections.
fn section_word_count(bytes: &[u8]) -> usize
    requires { trailer_bytes ≤ length bytes.now }
    ensures { result ≡ (length bytes.now - trailer_bytes) / 4 }
{
    (bytes.len() - TRAILER_BYTES) / WORD_BYTES
}

// Word k of the trailer.
fn trailer_word(bytes: &[u8], k: usize) -> u32
    requires { (trailer_bytes ≤ length bytes.now) × (k < 18) }
    ensures { result ≡ trailer_word bytes.now k }
{
    word_at(bytes, section_word_count(bytes) + k)
}

pub fn sizes_in(bytes: &[u8]) -> Sizes
    requires { trailer_bytes ≤ length bytes.now }
    ensures { sizesMeaning result ≡ sizes_read bytes.now }
{
    Sizes {
        r: trailer_word(bytes, SECTIONS),
        c: trailer_word(bytes, SECTIONS + 1),
        x: trailer_word(bytes, SECTIONS + 2),
        k: Triple {
            a: trailer_word(bytes, SECTIONS + 3),
            b: trailer_word(bytes, SECTIONS + 4),
            c: trailer_word(bytes, SECTIONS + 5),
        },
    }
}

// The end of a record: its length, and its last word.
fn end_fault(bytes: &[u8]) -> Result<(), Refusal>
    ensures { refusal_in result ≡ end_row bytes.now }
{
    let n = bytes.len();
    if n >= TRAILER_BYTES
        && n % WORD_BYTES == 0
        && trailer_word(bytes, TRAILER_WORDS - 1) as usize == n - TRAILER_BYTES
    {
        Ok(())
    } else {
        Err(Refusal(Row::RecordEnd, 0))
    }
}

// The starts and the total length of a record against those that its sizes give.
fn starts_fault(bytes: &[u8], s: Sizes) -> Result<(), Refusal>
    requires { (trailer_bytes ≤ length bytes.now) × Allowed (sizesMeaning s) }
    ensures { refusal_in result ≡ starts_refusal bytes.now (sizesMeaning s) }
{
    let given = section_bounds(s);
    for k in 0..SECTIONS {
        if trailer_word(bytes, k) != given[k] {
            return Err(Refusal(Row::RecordTrailer, k));
        }
    }
    if bytes.len() - TRAILER_BYTES != given[SECTIONS] as usize {
        return Err(Refusal(Row::RecordTrailer, TRAILER_WORDS - 1));
    }
    Ok(())
}

// The trailer of a record: its sizes, then its starts, then the total length.
fn trailer_fault(bytes: &[u8]) -> Result<(), Refusal>
    requires { trailer_bytes ≤ length bytes.now }
    ensures { refusal_in result ≡ trailer_row bytes.now }
{
    let s = sizes_in(bytes);
    judge_sizes(Row::RecordTrailer, SECTIONS, s)?;
    starts_fault(bytes, s)
}

// All of a record but its words.
pub fn layout_fault(bytes: &[u8]) -> Result<(), Refusal>
    ensures { refusal_in result ≡ layout_refusal bytes.now }
{
    end_fault(bytes)?;
    trailer_fault(bytes)
}

// The words of the sections of a record whose layout holds.
pub fn section_words_fault(p: u32, bytes: &[u8]) -> Result<(), Refusal>
    requires { layout_refusal bytes.now ≡ none }
    ensures { (q : Prime) → q.p ≡ p → refusal_in result ≡ word_row bytes.now q }
{
    for i in 0..section_word_count(bytes) {
        if p <= word_at(bytes, i) {
            return Err(Refusal(Row::Word, i));
        }
    }
    Ok(())
}

// A record's sizes, or its first refusal: the end (2), the trailer (3), a word (6).
pub fn read(p: u32, bytes: &[u8]) -> Result<Sizes, Refusal>
    ensures { (q : Prime) → q.p ≡ p → outcome sizesMeaning result ≡ sizes_found (read_record bytes.now q) }
{
    layout_fault(bytes)?;
    section_words_fault(p, bytes)?;
    Ok(sizes_in(bytes))
}
