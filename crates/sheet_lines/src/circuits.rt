// The circuits of a text, one on a line: the first line that is wrong, and the circuits of the others.
ghost use Rattle.std.specs.Prelude.{◌≡◌, List, [], ◌∷◌, ◌++◌, map};
ghost use Rattle.shared.specs.Meanings.{refusal_in};
ghost use Rattle.sheet_lines.specs.Lines.{Given, sheet_refusal, lines_of, line_of, wrong, circuits as circuitsIn};
ghost use Rattle.sheet_lines.specs.Meanings.{given, found_line, message_due, Kept, KeptAll, Counted};

use crate::numbers::{Request, Wrong, ZEROS, read};
use circuit::checks::{check_counts, check_sizes};
use shared::{Refusal, Three};

pub const MOST_CIRCUITS: usize = 16;

// A line's number, counted from 1, and what is wrong with it.
#[derive(Clone, Copy)]
pub struct WrongLine {
    pub line: usize,
    pub wrong: Wrong,
}

// The first 16 circuits, and the count of all of them, 17 for more than 16.
#[derive(Clone, Copy)]
pub struct Circuits {
    pub array: [Request; MOST_CIRCUITS],
    pub count: usize,
}

// 4 for the sizes, then 5 for the counts.
fn judge(request: Request) -> Result<(), Refusal>
    ensures { refusal_in result ≡ sheet_refusal (given request) }
{
    check_sizes(request.r, request.c, request.x)?;
    let Three { a, b, c } = request.entries;
    check_counts(a, b, c)
}

// The circuit on a line, if the line isn't blank.
fn read_line(line: &[u8]) -> Result<Option<Request>, Wrong>
    ensures { found_line result ≡ line_of line.now }
{
    let read = read(line)?;
    if let Some(request) = read {
        judge(request)?;
    }
    Ok(read)
}

// The first line that is wrong.
pub fn first_wrong(text: &[u8]) -> Option<WrongLine>
    ensures { wrong 1 (map line_of (lines_of text.now)) ≡ message_due result }
{
    for (i, line) in text.split(|b| *b == b'\n').enumerate() {
        if let Err(wrong) = read_line(line) {
            return Some(WrongLine { line: i + 1, wrong });
        }
    }
    None
}

// One circuit more, where there is room.
fn keep(circuits: Circuits, request: Request) -> Option<Circuits>
    ensures { (gs : List Given) → Kept gs circuits.array circuits.count → KeptAll (gs ++ (given request ∷ [])) result }
{
    let Circuits { mut array, count } = circuits;
    if count >= MOST_CIRCUITS {
        return None;
    }
    array[count] = request;
    Some(Circuits {
        array,
        count: count + 1,
    })
}

// What is found on one line more.
fn keep_found(circuits: Circuits, found: Result<Option<Request>, Wrong>) -> Option<Circuits>
    ensures { (gs : List Given) → Kept gs circuits.array circuits.count → KeptAll (gs ++ circuitsIn (found_line found ∷ [])) result }
{
    match found {
        Ok(Some(request)) => keep(circuits, request),
        _ => Some(circuits),
    }
}

// The circuits of the lines that are not wrong.
pub fn collect(text: &[u8]) -> Circuits
    ensures { Counted (circuitsIn (map line_of (lines_of text.now))) result.array result.count }
{
    let mut circuits = Circuits {
        array: [ZEROS; MOST_CIRCUITS],
        count: 0,
    };
    for line in text.split(|b| *b == b'\n') {
        match keep_found(circuits, read_line(line)) {
            Some(more) => circuits = more,
            None => {
                return Circuits {
                    count: MOST_CIRCUITS + 1,
                    ..circuits
                };
            }
        }
    }
    circuits
}

// The same, unless there are more than 16.
pub fn collect_all(text: &[u8]) -> Option<Circuits>
    ensures { KeptAll (circuitsIn (map line_of (lines_of text.now))) result }
{
    let circuits = collect(text);
    (circuits.count <= MOST_CIRCUITS).then_some(circuits)
}
