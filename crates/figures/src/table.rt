// The table: a row for each figure, with its name, a number for each circuit, and the theorem behind it.
ghost use Rattle.std.specs.Prelude.{map, ◌+◌, ◌*◌, ◌≤◌, ◌<◌, length};
ghost use Rattle.domain.specs.BabyBear.{baby_bear};
ghost use Rattle.text.specs.Ascii.{ascii};
ghost use Rattle.text.specs.Decimal.{decimal};
ghost use Rattle.text.specs.Written.{Written};
ghost use Rattle.sheet_lines.specs.Meanings.{given};
ghost use Rattle.figures.specs.Figures.{figures};
ghost use Rattle.figures.specs.Placed.{row_count, figure_at, Within, name_room, source_room, number_room, cell_room, row_room, sheet_room};
ghost use Rattle.figures.specs.Sheet.{most_circuits, cell_text, cells_text, row_text, rows_text};

use crate::column::{NUMBERS, number};
use crate::conversations::{CONVERSATIONS, put_conversations};
use crate::nth_line::put_line;
use sheet_lines::numbers::Request;
use text::{put_byte, put_decimal};

// p³ and p² for the module's prime, in decimal, a line each.
const POWERS: [u8; 48] = *b"8160249294558465929206824961\n4053239668659978241";

// How many rows there are that count triples, and in all.
const TRIPLES: usize = 4;

pub const ROWS: usize = NUMBERS + TRIPLES + CONVERSATIONS;

// Room for every row.
pub const ROW_BYTES: usize = 1688;

// The names of the figures and of the theorems, a line for each row.
const NAMES: [u8; 1014] = *b"|R|\n|C|\n|X|\n\
    entries of A\nentries of B\nentries of C\n\
    size of K_A\nsize of K_B\nsize of K_C\nsize of K\n\
    words of w\nwords of m\nwords of h0\nwords of s\nwords of g1\nwords of h1\nwords of o\n\
    words of ga\nwords of gb\nwords of gc\nwords of h2\nbytes of the record\n\
    degree of Row\nallowed points of Row\ndegree of Line\nallowed points of Line\n\
    degree of Matrix for A\ndegree of Matrix for B\ndegree of Matrix for C\ndegree of Matrix joined\nallowed points of Matrix\n\
    triples of eta\ntriples of eta that save a false sum\n\
    triples of delta\ntriples of delta that save a false matrix value, at most\n\
    allowed challenge tuples\n\
    tuples that alpha saves, at most\ntuples that eta saves, at most\ntuples that beta saves, at most\n\
    tuples that delta saves, at most\ntuples that gamma saves, at most\n\
    tuples accepted without a witness, at most\ntuples accepted without a witness, at most one in\n\
    masks, as a power of p\nmasks for one list of openings, as a power of p\n\
    conversations for at most one false proof in 2^64\nconversations for at most one false proof in 2^128";

const SOURCES: [u8; 521] = *b"given\ngiven\ngiven\n\
    given\ngiven\ngiven\n\
    sizeFor\nsizeFor\nsizeFor\nlargest\n\
    rules-kept\nrules-kept\nrules-kept\nrules-kept\nrules-kept\nrules-kept\nrules-kept\n\
    rules-kept\nrules-kept\nrules-kept\nrules-kept\nread-written\n\
    row-means\nallowed-points\nline-means\nallowed-points\n\
    matrix-means\nmatrix-means\nmatrix-means\nvalues-caught\nallowed-points\n\
    all-triples\nsums-caught\n\
    all-triples\nvalues-caught\n\
    allowed-tuples\n\
    saved-by-alpha\nsaved-by-eta\nsaved-by-beta\nsaved-by-delta\nsaved-by-gamma\n\
    few-accepted\none-in\n\
    all-masks\nany-three\none-list-in\none-list-in";

fn put_name(row: usize, out: &mut [u8], at: usize) -> usize
    requires row_lt_row_count { row < row_count }
    requires name_room_in_bounds { at + name_room ≤ length out.old }
    ensures { Within name_room out.old at (ascii (figure_at baby_bear row).name) result out.new }
{
    put_line(&NAMES, row, out, at)
}

fn put_source(row: usize, out: &mut [u8], at: usize) -> usize
    requires row_lt_row_count { row < row_count }
    requires source_room_in_bounds { at + source_room ≤ length out.old }
    ensures { Within source_room out.old at (ascii (figure_at baby_bear row).source) result out.new }
{
    put_line(&SOURCES, row, out, at)
}

// The number of a row for a circuit. The rows after the numbers count triples of challenges: all p³, then the p² that save a false
// sum or matrix value, for eta and for delta. The rows after these are on whole conversations.
fn put_number(row: usize, request: Request, out: &mut [u8], at: usize) -> usize
    requires row_lt_row_count { row < row_count }
    requires number_room_in_bounds { at + number_room ≤ length out.old }
    ensures { Within number_room out.old at (decimal ((figure_at baby_bear row).number (given request))) result out.new }
{
    if row < NUMBERS {
        return put_decimal(number(row, request), out, at);
    }
    let after = row - NUMBERS;
    if after < TRIPLES {
        return put_line(&POWERS, after % 2, out, at);
    }
    put_conversations(after - TRIPLES, request, out, at)
}

// A tab and the number.
fn put_cell(row: usize, request: Request, out: &mut [u8], at: usize) -> usize
    requires row_lt_row_count { row < row_count }
    requires cell_room_in_bounds { at + cell_room ≤ length out.old }
    ensures { Within cell_room out.old at (cell_text (figure_at baby_bear row) (given request)) result out.new }
{
    let place = put_byte(b'\t', out, at);
    put_number(row, request, out, place)
}

// The cells of a row for the circuits.
fn put_cells(row: usize, requests: &[Request], out: &mut [u8], at: usize) -> usize
    requires row_lt_row_count { row < row_count }
    requires count_in_bounds { at + cell_room * length requests.now ≤ length out.old }
    ensures { Within (cell_room * length requests.now) out.old at
        (cells_text (figure_at baby_bear row) (map given requests.now)) result out.new }
{
    let mut place = at;
    for request in requests {
        place = put_cell(row, *request, out, place);
    }
    place
}

fn put_row(row: usize, requests: &[Request], out: &mut [u8], at: usize) -> usize
    requires row_lt_row_count { row < row_count }
    requires count_le_most_circuits { length requests.now ≤ most_circuits }
    requires row_room_in_bounds { at + row_room ≤ length out.old }
    ensures { Within row_room out.old at (row_text (map given requests.now) (figure_at baby_bear row)) result out.new }
{
    let place = put_name(row, out, at);
    let place = put_cells(row, requests, out, place);
    let place = put_byte(b'\t', out, place);
    let place = put_source(row, out, place);
    put_byte(b'\n', out, place)
}

// The table of the circuits, from the start of the buffer.
pub fn put_table(requests: &[Request], out: &mut [u8]) -> usize
    requires count_le_most_circuits { length requests.now ≤ most_circuits }
    requires sheet_room_in_bounds { sheet_room ≤ length out.old }
    ensures { Written out.old 0 (rows_text (map given requests.now) (figures baby_bear)) result out.new }
{
    let mut place = 0;
    for row in 0..ROWS {
        place = put_row(row, requests, out, place);
    }
    place
}
