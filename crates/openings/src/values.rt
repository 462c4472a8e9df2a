// Values at a point: a polynomial's beside that without its constant, and an exact quotient by v_D.
ghost use Rattle.std.specs.Prelude.{◌≡◌, true, map, ◌<◌, length};
ghost use Rattle.field.specs.Prime.{Prime};
ghost use Rattle.field.specs.Element.{Elem, of, ◌⊗◌};
ghost use Rattle.domain.specs.Size.{is_size};
ghost use Rattle.domain.specs.Domain.{vanishing};
ghost use Rattle.domain.specs.Known.{Known, OutsideDomain};
ghost use Rattle.openings.specs.Parted.{IsParted};

// A polynomial's value at a point, and that of all its coefficients but the constant, one place down.
#[derive(Clone, Copy)]
pub struct Parted {
    pub whole: u32,
    pub rest: u32,
}

// The dividend over v_D(y), for y outside the domain of size n.
pub fn over_vanishing(p: u32, n: u32, y: u32, dividend: u32) -> u32
    requires lt_p { 1 < p }
    requires n_value { is_size n ≡ true }
    requires outside_domain { OutsideDomain p n y }
    ensures { (q : Prime) → Known q p → (h : Elem q) → of dividend ≡ h ⊗ vanishing n (of y) → result ≡ h.word }
{
    field::divide(p, dividend, domain::vanishing_value(p, n, y))
}

// f(y), and the value without the constant.
pub fn parted_at(p: u32, f: &[u32], y: u32) -> Parted
    requires p_nonzero { 0 < p }
    requires f_nonzero { 0 < length f.now }
    ensures { (q : Prime) → q.p ≡ p → IsParted q (map of f.now) (of y) result }
{
    let rest = poly::evaluate(p, &f[1..], y);
    Parted {
        whole: field::multiply_add(p, y, rest, f[0]),
        rest,
    }
}
