// Text into a lent buffer: bytes, and numbers in decimal. Each function puts its text from a place on and gives the place after it.
#![tactic(auto)]

ghost use Rattle.std.specs.Prelude.{◌≡◌, [], ◌∷◌, ◌+◌, ◌≤◌, ◌<◌, length};
ghost use Rattle.text.specs.Decimal.{digit, decimal};
ghost use Rattle.text.specs.Written.{Written};

pub fn put_byte(byte: u8, out: &mut [u8], at: usize) -> usize
    requires { at < length out.old }
    ensures { Written out.old at (byte ∷ []) result out.new }
{
    out[at] = byte;
    at + 1
}

pub fn put_bytes(text: &[u8], out: &mut [u8], at: usize) -> usize
    requires { at + length text.now ≤ length out.old }
    ensures { Written out.old at text.now result out.new }
{
    let end = at + text.len();
    out[at..end].copy_from_slice(text);
    end
}

fn digit_code(d: usize) -> u8
    requires { d < 10 }
    ensures { result ≡ digit d }
{
    b'0' + d as u8
}

// The digits of n, the most significant first.
pub fn put_decimal(n: usize, out: &mut [u8], at: usize) -> usize
    requires { at + length (decimal n) ≤ length out.old }
    ensures { Written out.old at (decimal n) result out.new }
{
    if n < 10 {
        return put_byte(digit_code(n), out, at);
    }
    let next = put_decimal(n / 10, out, at);
    put_byte(digit_code(n % 10), out, next)
}
