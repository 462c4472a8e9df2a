// What the crates of code share: the types, whose values specs/Meanings.antt gives their meaning, and the code that more than one crate
// needs.
#![tactic(auto)]

ghost use Rattle.std.specs.Prelude.{◌≡◌};
ghost use Rattle.shared.specs.Meanings.{row_number};

pub mod constant;
pub mod lengths;
pub mod scans;
pub mod six_sizes;

// The rows of document 01's table of refusals, with those that document 02 adds.
#[derive(Clone, Copy, PartialEq, Eq)]
pub enum Row {
    Turn,
    RecordEnd,
    RecordTrailer,
    Size,
    List,
    Word,
    Entry,
    Mask,
    Assignment,
    Challenge,
    Length,
    Inverse,
    Constant,
    Taken,
    Blinding,
}

impl Row {
    // The row's number in the table.
    pub fn number(self) -> u32
        ensures { result ≡ row_number self }
    {
        match self {
            Row::Turn => 1,
            Row::RecordEnd => 2,
            Row::RecordTrailer => 3,
            Row::Size => 4,
            Row::List => 5,
            Row::Word => 6,
            Row::Entry => 7,
            Row::Mask => 8,
            Row::Assignment => 9,
            Row::Challenge => 10,
            Row::Length => 11,
            Row::Inverse => 12,
            Row::Constant => 13,
            Row::Taken => 14,
            Row::Blinding => 15,
        }
    }
}

// The error of a call: the row of the table that refuses it, and the position. A function that judges answers `Ok` where nothing is
// refused.
#[derive(Clone, Copy, PartialEq, Eq)]
pub struct Refusal(pub Row, pub usize);

// A part of the caller's memory: where it begins, and its length.
#[derive(Clone, Copy)]
pub struct Place {
    pub start: usize,
    pub length: usize,
}

// One value for each of the matrices A, B, C.
#[derive(Clone, Copy)]
pub struct Three<T> {
    pub a: T,
    pub b: T,
    pub c: T,
}

// One word for each of the matrices A, B, C.
pub type Triple = Three<u32>;

// |R|, |C|, |X| and the three |K_M|.
#[derive(Clone, Copy)]
pub struct Sizes {
    pub r: u32,
    pub c: u32,
    pub x: u32,
    pub k: Triple,
}

// The transcript, which the verifier hears before the openings: challenges, claimed sums and claimed matrix values.
#[derive(Clone, Copy)]
pub struct Transcript {
    pub alpha: u32,
    pub sums: Triple,
    pub eta: Triple,
    pub beta: u32,
    pub values: Triple,
    pub delta: Triple,
    pub gamma: u32,
}

// The openings of the messages; those of the index polynomials stand beside them as [[u32; 4]; 3].
#[derive(Clone, Copy)]
pub struct Opened {
    pub witness: u32,
    pub mask: u32,
    pub line_remainder: u32,
    pub line_quotient: u32,
    pub row_quotient: u32,
    pub joined_quotient: u32,
    pub matrix_remainders: Triple,
}

// The three checks, in order.
#[derive(Clone, Copy)]
pub enum Check {
    Row,
    Line,
    Matrix,
}

#[derive(Clone, Copy)]
pub enum Verdict {
    Accept,
    Fails(Check),
}
