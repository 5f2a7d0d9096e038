// Digits. They are made by hand, since `write!` answers a `Result`, and no line here can fail.
ghost use Rattle.std.specs.Prelude.{◌≡◌, ◌%◌, ◌≤◌, ◌<◌, length};
ghost use Rattle.definition.specs.Numerals.{digit, digits};

// A base that numbers are written in: there are characters for sixteen digits.
#[derive(Clone, Copy)]
pub struct Base {
    pub of: u64,
    ghost low: { 2 ≤ of },
    ghost high: { of ≤ 16 },
}

// The character of a digit.
fn digit_of(d: u64) -> u8
    requires { d < 16 }
    ensures { result ≡ digit d }
{
    let c = if d < 10 { b'0' } else { b'a' - 10 };
    c + d as u8
}

impl Base {
    pub const TEN: Base = Base { of: 10 };

    pub const SIXTEEN: Base = Base { of: 16 };

    // The character of a number's last digit.
    pub fn last(self, number: u64) -> u8
        ensures { result ≡ digit (number % self.of) }
    {
        digit_of(number % self.of)
    }

    // How many digits a number has: 0 has one too.
    pub fn count(self, number: u64) -> usize
        ensures is { result ≡ length (digits 64 self.of number) }
        ensures some { 1 ≤ result }
        ensures most { result ≤ 64 }
    {
        if number == 0 {
            1
        } else {
            number.ilog(self.of) as usize + 1
        }
    }
}
