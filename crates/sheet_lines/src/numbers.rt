// Six numbers read from a line: digits, and blanks between the numbers.
ghost use Rattle.std.specs.Prelude.{◌≡◌, true, ◌-◌};
ghost use Rattle.sheet_lines.specs.declared.numbers.Wrong.TheVariants.{Refused};
ghost use Rattle.sheet_lines.specs.Numbers.{is_digit, is_blank, extend as extended, numbers_in};
ghost use Rattle.sheet_lines.specs.Scanning.{number_read, pushed, number_ended, stepped, scanned, reading_of};

use shared::{Refusal, Three, Triple};

// What the planner gives of a circuit: |R|, |C|, |X| and the entry counts of A, B, C.
#[derive(Clone, Copy)]
pub struct Request {
    pub r: u32,
    pub c: u32,
    pub x: u32,
    pub entries: Triple,
}

// What is wrong with a line: it holds something other than six numbers, or its circuit is refused.
#[derive(Clone, Copy)]
pub enum Wrong {
    NotSix,
    Refused(Refusal),
}

impl From<Refusal> for Wrong {
    ghost from_gives = { λ refusal wrong. wrong ≡ Refused refusal };

    fn from(refusal: Refusal) -> Wrong {
        Wrong::Refused(refusal)
    }
}

// What is known after some bytes, all of them digits and blanks: the number whose digits are being read, how many numbers have ended
// (7 for more than six), and the last six of them.
#[derive(Clone, Copy)]
pub struct Scan {
    pub number: Option<u32>,
    pub count: u32,
    pub six: Request,
}

// A request of zeros, before any number is read.
pub const ZEROS: Request = Request {
    r: 0,
    c: 0,
    x: 0,
    entries: Three { a: 0, b: 0, c: 0 },
};

const LARGEST_READ: u32 = 65535;

const WANTED: u32 = 6;

fn is_digit(b: u8) -> bool
    ensures { result ≡ is_digit b }
{
    b.is_ascii_digit()
}

fn is_blank(b: u8) -> bool
    ensures { result ≡ is_blank b }
{
    matches!(b, b' ' | b'\t' | b'\n' | b'\r')
}

// A number with one more digit.
fn extend(number: Option<u32>, b: u8) -> u32
    requires { is_digit b ≡ true }
    ensures { result ≡ extended (number_read number) b }
{
    let digit = u32::from(b - b'0');
    match number {
        None => digit,
        Some(n) => n.saturating_mul(10).saturating_add(digit).min(LARGEST_READ),
    }
}

fn push(six: Request, number: u32) -> Request
    ensures { result ≡ pushed six number }
{
    let Three { a, b, c } = six.entries;
    Request {
        r: six.c,
        c: six.x,
        x: a,
        entries: Three {
            a: b,
            b: c,
            c: number,
        },
    }
}

// A number that was being read ends.
fn end_number(s: Scan) -> Scan
    ensures { result ≡ number_ended s }
{
    match s.number {
        None => s,
        Some(n) => Scan {
            number: None,
            count: s.count.saturating_add(1).min(WANTED + 1),
            six: push(s.six, n),
        },
    }
}

// One more byte, unless it is neither a digit nor a blank.
fn step(s: Scan, b: u8) -> Option<Scan>
    ensures { result ≡ stepped s b }
{
    if is_digit(b) {
        Some(Scan {
            number: Some(extend(s.number, b)),
            ..s
        })
    } else if is_blank(b) {
        Some(end_number(s))
    } else {
        None
    }
}

fn scan_all(text: &[u8]) -> Option<Scan>
    ensures { result ≡ scanned text.now }
{
    let mut s = Scan {
        number: None,
        count: 0,
        six: ZEROS,
    };
    for b in text {
        s = step(s, *b)?;
    }
    Some(end_number(s))
}

// The numbers: none on a blank line, six, or something else.
pub fn read(line: &[u8]) -> Result<Option<Request>, Wrong>
    ensures { result ≡ reading_of (numbers_in line.now) }
{
    let Some(s) = scan_all(line) else {
        return Err(Wrong::NotSix);
    };
    match s.count {
        0 => Ok(None),
        WANTED => Ok(Some(s.six)),
        _ => Err(Wrong::NotSix),
    }
}
