// Public calls on proof records. Sections are slices of words, a record is bytes.
ghost use Rattle.std.specs.Prelude.{◌≡◌, length};
ghost use Rattle.domain.specs.BabyBear.{baby_bear};
ghost use Rattle.protocol.specs.Calls.{write_call, section_call, place_call};
ghost use Rattle.shared.specs.Meanings.{outcome, sizes as sizesMeaning};
ghost use Rattle.protocol.specs.Record.{read_record};
ghost use Rattle.record.specs.Answers.{sizes_found};
ghost use Rattle.shared.specs.Answers.{place};
ghost use Rattle.record_writer.specs.Sections.{each_section};
ghost use Rattle.varuna.specs.Answers.{filled_meaning, filling, fills};

use field::MODULE_PRIME;
use shared::{Place, Refusal, Sizes};

// A record of eleven sections, each by its name in document 01, into lent bytes. Refusals: 4 for a size, 5 for a section or the lent bytes, 6 for a word.
pub fn write_record(
    sizes: Sizes,
    w: &[u32],
    m: &[u32],
    h0: &[u32],
    s: &[u32],
    g1: &[u32],
    h1: &[u32],
    o: &[u32],
    ga: &[u32],
    gb: &[u32],
    gc: &[u32],
    h2: &[u32],
    out: &mut [u8],
) -> Result<(), Refusal>
    ensures { filling (filled_meaning result) out.new
        ≡ fills (write_call baby_bear (sizesMeaning sizes)
        (each_section w.now m.now h0.now s.now g1.now
        h1.now o.now ga.now gb.now gc.now h2.now)
        (length out.old)) out.old }
{
    record_writer::write(
        MODULE_PRIME,
        sizes,
        w,
        m,
        h0,
        s,
        g1,
        h1,
        o,
        ga,
        gb,
        gc,
        h2,
        out,
    )
}

// The six sizes of a record. Refusals: 2 for its end, 3 for its trailer, 6 for a word.
pub fn read_record(bytes: &[u8]) -> Result<Sizes, Refusal>
    ensures { outcome sizesMeaning result ≡ sizes_found (read_record bytes.now baby_bear) }
{
    record::read(MODULE_PRIME, bytes)
}

// Where section k of a record stands: its start and its length in bytes. Refusals: 2 for the record's end, 3 for its trailer, 5 for a
// section number above 10, 6 for a word.
pub fn find_section(bytes: &[u8], k: usize) -> Result<Place, Refusal>
    ensures { outcome place result ≡ place_call baby_bear bytes.now k }
{
    record::find_section(MODULE_PRIME, bytes, k)
}

// Section k of a record as that part of the caller's bytes: empty where the record is refused or has no such section.
pub fn section<'a>(bytes: &'a [u8], k: usize) -> &'a [u8]
    ensures { result.now ≡ section_call baby_bear bytes.now k }
{
    record::section(MODULE_PRIME, bytes, k)
}
