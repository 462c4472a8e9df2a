// What public calls answer and what they are given, of other crates; and the openings of the index polynomials as the session takes them. A
// call that fills lent slices answers `Ok` where they are filled, and an error where they are left as they were.
ghost use Rattle.std.specs.Prelude.{◌≡◌};
ghost use Rattle.varuna.specs.Answers.{index_arrays};

pub use circuit::given::{Challenges, CircuitWords, ProverInput};
pub use openings::{AllOpened, IndexOpened};
pub use poly::Running;
pub use shared::{Check, Opened, Place, Refusal, Row, Sizes, Three, Triple, Verdict};

// row, col, rowcol, rowcolval of A, then B, then C.
pub fn index_arrays(index: Three<IndexOpened>) -> [[u32; 4]; 3]
    ensures { result ≡ index_arrays index }
{
    let Three { a, b, c } = index;
    [
        [a.row, a.col, a.rowcol, a.rowcolval],
        [b.row, b.col, b.rowcol, b.rowcolval],
        [c.row, c.col, c.rowcol, c.rowcolval],
    ]
}
