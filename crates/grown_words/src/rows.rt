// A row's entries, and a matrix's, as parts of the circuit's own words.
ghost use Rattle.std.specs.Prelude.{◌≡◌, ◌<◌, length};
ghost use Rattle.protocol.specs.Grown.{grown_words, entry_words_in, find_row_call, row_call};
ghost use Rattle.shared.specs.Answers.{place, Within};
ghost use Rattle.shared.specs.Meanings.{outcome};

use crate::places::{MATRICES, MAX_ROWS, entries_place, find_row, total_of};
use shared::{Place, Refusal, Row};

// Where a row's entries stand: the first word and the number of words. Refusal: 7 for a row past its domain.
pub fn find_row_entries(circuit: &[u32], matrix: u32, row: u32) -> Result<Place, Refusal>
    requires { length circuit.now ≡ grown_words }
    ensures result_value { outcome place result ≡ find_row_call circuit.now matrix row }
    ensures within { Within (length circuit.now) (outcome place result) }
{
    if matrix >= MATRICES || row >= MAX_ROWS || row >= circuit[0] {
        return Err(Refusal(Row::Entry, 0));
    }
    let span = find_row(circuit, matrix, row);
    Ok(Place {
        start: entries_place(matrix) + 3 * span.start,
        length: 3 * (span.end - span.start),
    })
}

// A row's entries: empty where the row is refused.
pub fn row_entries<'a>(circuit: &'a [u32], matrix: u32, row: u32) -> &'a [u32]
    requires { length circuit.now ≡ grown_words }
    ensures { result.now ≡ row_call circuit.now matrix row }
{
    match find_row_entries(circuit, matrix, row) {
        Ok(place) => &circuit[place.start..place.start + place.length],
        Err(_) => &circuit[..0],
    }
}

// A matrix's entries, as an entry list.
pub fn matrix_entries<'a>(circuit: &'a [u32], matrix: u32) -> &'a [u32]
    requires circuit_len { length circuit.now ≡ grown_words }
    requires matrix_bound { matrix < 3 }
    ensures { result.now ≡ entry_words_in circuit.now matrix }
{
    let start = entries_place(matrix);
    let len = 3 * total_of(circuit, matrix);
    &circuit[start..start + len]
}
