// What a call's error has to give, so that its refusal can be handed over: a number and a position. A refusal of the table has its row's
// number, a pair has any.
ghost use Rattle.std.specs.Prelude.{◌≡◌};
ghost use Rattle.protocol.specs.Refusals as protocol;
ghost use Rattle.shared.specs.Meanings as meanings;

use varuna::answers::Refusal;

pub trait Numbered: Copy {
    ghost refusal: { Self → protocol.Refusal };

    fn numbers(self) -> (u32, usize)
        ensures { record { number = result.0; position = result.1 } ≡ refusal self };
}

impl Numbered for Refusal {
    ghost refusal = { meanings.refusal };

    fn numbers(self) -> (u32, usize) {
        (self.0.number(), self.1)
    }
}

impl Numbered for (u32, usize) {
    ghost refusal = { λ pair. record { number = pair.0; position = pair.1 } };

    fn numbers(self) -> (u32, usize) {
        self
    }
}
