// The reserved columns, and the test that no entry stands in them or in the reserved row, which is the last.
ghost use Rattle.std.specs.Prelude.{◌≡◌, ◌||◌, [], ◌∷◌, eqb};
ghost use Rattle.algebra.specs.Lists.{any};
ghost use Rattle.protocol.specs.Circuit.{Circuit};
ghost use Rattle.protocol.specs.Calls.{entries_of};
ghost use Rattle.protocol.specs.Blinded.{reserved_row, reserved_columns, stands_reserved, reservable};
ghost use Rattle.shared.specs.Meanings.{three};
ghost use Rattle.circuit.specs.Given.{lists_in};
ghost use Rattle.blinding.specs.Given.{Sized, Reserving};

use circuit::given::CircuitWords;
use shared::{Three, Triple};

// The three highest columns that are not public, rising. Where every second column is public they are every second one, else the last
// three.
pub fn reserved_columns(c: u32, x: u32) -> Triple
    requires { Reserving c x }
    ensures { (k : Circuit) → k.|C| ≡ c → k.|X| ≡ x → three result ≡ reserved_columns k }
{
    if c == 2 * x {
        return Triple {
            a: c - 5,
            b: c - 3,
            c: c - 1,
        };
    }
    Triple {
        a: c - 3,
        b: c - 2,
        c: c - 1,
    }
}

// An entry stands in the last row or in a reserved column.
fn is_reserved(last: u32, columns: Triple, row: u32, column: u32) -> bool
    ensures { result ≡ (eqb row last || any (eqb column) (columns.a ∷ columns.b ∷ columns.c ∷ [])) }
{
    row == last || column == columns.a || column == columns.b || column == columns.c
}

// Some entry of a list does.
fn any_reserved(last: u32, columns: Triple, entries: &[u32]) -> bool
    ensures { (k : Circuit) → reserved_row k ≡ last → reserved_columns k ≡ three columns
        → result ≡ any (stands_reserved k) (entries_of entries.now) }
{
    for i in 0..entries.len() / 3 {
        if is_reserved(last, columns, entries[3 * i], entries[3 * i + 1]) {
            return true;
        }
    }
    false
}

// There are three columns that are not public, and no entry stands in the last row or in the highest three of them.
pub fn is_reservable(circuit: &CircuitWords) -> bool
    requires { Sized circuit.now.r circuit.now.c circuit.now.x }
    ensures { (k : Circuit) → k.|R| ≡ circuit.now.r → k.|C| ≡ circuit.now.c → k.|X| ≡ circuit.now.x
        → k.matrices ≡ lists_in circuit.now → result ≡ reservable k }
{
    if circuit.c - circuit.x < 3 {
        return false;
    }
    let columns = reserved_columns(circuit.c, circuit.x);
    let last = circuit.r - 1;
    let Three { a, b, c } = circuit.matrices;
    !(any_reserved(last, columns, a)
        || any_reserved(last, columns, b)
        || any_reserved(last, columns, c))
}
