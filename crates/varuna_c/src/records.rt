// Calls on proof records.
ghost use Rattle.std.specs.Prelude.{◌≡◌, length};
ghost use Rattle.domain.specs.BabyBear.{baby_bear};
ghost use Rattle.protocol.specs.Record.{read_record};
ghost use Rattle.protocol.specs.Calls.{write_call, place_call};
ghost use Rattle.record.specs.Answers.{sizes_found};
ghost use Rattle.record_writer.specs.Sections.{each_section};
ghost use Rattle.c_numbers.specs.Answers.{told, answered, sizes_listed};
ghost use Rattle.c_numbers.specs.Inputs.{sizes_in};

use c_numbers::answers::{give_filled, give_place, give_sizes};
use c_numbers::inputs::sizes_in;

// A record of eleven sections. Refusals 4, 5, 6.
#[unsafe(no_mangle)]
pub extern "C" fn varuna_write_record(
    sizes: &[u32; 6],
    w: &[u32],
    m: &[u32],
    h0: &[u32],
    s: &[u32],
    g1: &[u32],
    h1: &[u32],
    o: &[u32],
    ga: &[u32],
    gb: &[u32],
    gc: &[u32],
    h2: &[u32],
    bytes: &mut [u8],
    position: &mut usize,
) -> u32
    ensures { told result position.new bytes.new
        ≡ answered (write_call baby_bear (sizes_in sizes.now)
        (each_section w.now m.now h0.now s.now g1.now h1.now
        o.now ga.now gb.now gc.now h2.now)
        (length bytes.old)) bytes.old }
{
    let answer = varuna::records::write_record(
        sizes_in(sizes),
        w,
        m,
        h0,
        s,
        g1,
        h1,
        o,
        ga,
        gb,
        gc,
        h2,
        bytes,
    );
    give_filled(answer, position)
}

// The six sizes of a record. Refusals 2, 3, 6.
#[unsafe(no_mangle)]
pub extern "C" fn varuna_read_record(
    bytes: &[u8],
    sizes: &mut [u32; 6],
    position: &mut usize,
) -> u32
    ensures { told result position.new sizes.new
        ≡ answered (sizes_listed (sizes_found (read_record bytes.now baby_bear))) sizes.old }
{
    give_sizes(varuna::records::read_record(bytes), sizes, position)
}

// Where section k of a record stands: its start and its length in bytes. Refusals 2, 3, 5, 6.
#[unsafe(no_mangle)]
pub extern "C" fn varuna_section(
    bytes: &[u8],
    k: usize,
    start: &mut usize,
    length: &mut usize,
    position: &mut usize,
) -> u32
    ensures { told result position.new (start.new, length.new)
        ≡ answered (place_call baby_bear bytes.now k) (start.old, length.old) }
{
    give_place(
        varuna::records::find_section(bytes, k),
        start,
        length,
        position,
    )
}
