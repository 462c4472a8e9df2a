// The numbers of one circuit: all figures that fit a word of the machine.
ghost use Rattle.std.specs.Prelude.{◌≡◌, map, ◌+◌, ◌-◌, ◌*◌, ◌<◌};
ghost use Rattle.domain.specs.BabyBear.{baby_bear};
ghost use Rattle.shared.specs.Meanings.{sizes as sizesMeaning};
ghost use Rattle.protocol.specs.Record.{section_bytes};
ghost use Rattle.protocol.specs.Refusals.{trailer_bytes};
ghost use Rattle.sheet_lines.specs.Meanings.{given};
ghost use Rattle.figures.specs.Figures.{sizes_for, Figure, size_figures, length_figures, check_figures};
ghost use Rattle.figures.specs.Placed.{number_rows, figure_at};

use field::MODULE_PRIME;
use shared::lengths::message_lengths;
use shared::six_sizes::largest;
use shared::{Sizes, Triple};
use sheet_lines::numbers::Request;

// The sums and the values have a word for each matrix.
const MATRICES: usize = 3;

const WORD_BYTES: usize = 4;

const TRAILER_BYTES: usize = 72;

// How many rows there are of each kind, and how many have a number that fits a word of the machine.
const SIZES: usize = 10;

const LENGTHS: usize = 12;

const CHECKS: usize = 9;

pub const NUMBERS: usize = SIZES + LENGTHS + CHECKS;

// 2n - d: the degree of a check over a domain of size n.
pub fn degree(n: u32, d: usize) -> usize
    ensures { result ≡ 2 * n - d }
{
    (2 * (n as usize)).saturating_sub(d)
}

// The points outside a domain of size n.
pub fn allowed(n: u32) -> usize
    ensures { result ≡ baby_bear.p - n }
{
    (MODULE_PRIME as usize).saturating_sub(n as usize)
}

pub fn sizes_for(g: Request) -> Sizes
    ensures { sizesMeaning result ≡ sizes_for (given g) }
{
    let n = g.entries;
    Sizes {
        r: g.r,
        c: g.c,
        x: g.x,
        k: Triple {
            a: domain::size_for(n.a),
            b: domain::size_for(n.b),
            c: domain::size_for(n.c),
        },
    }
}

// The bytes of the sections and of the trailer.
fn record_bytes(s: Sizes) -> usize
    ensures { result ≡ section_bytes (sizesMeaning s) + trailer_bytes }
{
    let l = message_lengths(s);
    let remainders = l.matrix_remainders;
    let rows = l.witness + l.mask + l.row_quotient + MATRICES;
    let lines = l.line_remainder + l.line_quotient + MATRICES;
    let matrices = remainders.a + remainders.b + remainders.c + l.joined_quotient;
    WORD_BYTES * (rows + lines + matrices) + TRAILER_BYTES
}

// What was given, and the sizes.
fn size_numbers(g: Request) -> [u32; SIZES]
    ensures { result ≡ map (λ (f : Figure). f.number (given g)) size_figures }
{
    let n = g.entries;
    let k = sizes_for(g).k;
    [g.r, g.c, g.x, n.a, n.b, n.c, k.a, k.b, k.c, largest(k)]
}

// The lengths of the messages and of the record.
fn length_numbers(g: Request) -> [usize; LENGTHS]
    ensures { result ≡ map (λ (f : Figure). f.number (given g)) length_figures }
{
    let s = sizes_for(g);
    let l = message_lengths(s);
    let remainders = l.matrix_remainders;
    [
        l.witness,
        l.mask,
        l.row_quotient,
        MATRICES,
        l.line_remainder,
        l.line_quotient,
        MATRICES,
        remainders.a,
        remainders.b,
        remainders.c,
        l.joined_quotient,
        record_bytes(s),
    ]
}

// The degrees and the allowed points of the checks.
fn check_numbers(g: Request) -> [usize; CHECKS]
    ensures { result ≡ map (λ (f : Figure). f.number (given g)) (check_figures baby_bear) }
{
    let k = sizes_for(g).k;
    let most = largest(k);
    [
        degree(g.r, 2),
        allowed(g.r),
        degree(g.c, 1),
        allowed(g.c),
        degree(k.a, 2),
        degree(k.b, 2),
        degree(k.c, 2),
        degree(most, 2),
        allowed(most),
    ]
}

// The number in a row for a circuit.
pub fn number(row: usize, g: Request) -> usize
    requires { row < number_rows }
    ensures { result ≡ (figure_at baby_bear row).number (given g) }
{
    if row < SIZES {
        let numbers = size_numbers(g);
        return numbers[row] as usize;
    }
    let after = row - SIZES;
    if after < LENGTHS {
        let numbers = length_numbers(g);
        return numbers[after];
    }
    let numbers = check_numbers(g);
    numbers[after - LENGTHS]
}
