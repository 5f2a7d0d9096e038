// A line that is being written: texts, numbers, names and values appended one behind the other. (By hand: `write!` answers a `Result`, and no line here
// can fail.)
ghost use Rattle.std.specs.Prelude.{◌≡◌};
ghost use Rattle.layout.specs.Text.{text};
ghost use Rattle.files.specs.Program.{texts_in};
ghost use Rattle.value.specs.Value.{read_as};
ghost use Rattle.definition.specs.Numerals.{digits, decimal, hexadecimal, padded};
ghost use Rattle.definition.specs.Listing.{integer_text, hex_beside, val_text, name_text};
ghost use Rattle.text.specs.Put.{last_digits};
ghost use Rattle.text.specs.Pushed.{Room, Pushed};

use crate::bodies::Name;
use crate::numerals::Base;
use value::{Ty, Val};

// A lent buffer, and how many bytes at its front are written.
#[derive(Drop)]
pub struct Line<'a> {
    out: &'a mut [u8],
    at: usize,
}

impl<'a> Line<'a> {
    pub fn new(out: &'a mut [u8]) -> Self
        ensures same_reference { result.out.ghost_name ≡ out.entry.ghost_name }
        ensures empty { (result.out.now ≡ out.old) × (result.at ≡ 0) }
    {
        Line { out, at: 0 }
    }

    pub fn len(&self) -> usize
        ensures { result ≡ self.now.at }
    {
        self.at
    }

    pub fn text(&mut self, from: &[u8])
        requires { Room self.old from.now }
        ensures { Pushed self.old self.new from.now }
    {
        let end = self.at + from.len();
        self.out[self.at..end].copy_from_slice(from);
        self.at = end;
    }

    // The last digits of a number, so many, from the right. (By how many are left of it, which is what the digits are told by.)
    fn last(&mut self, number: u64, base: Base, count: usize)
        requires { Room self.old (last_digits count base.of number) }
        ensures { Pushed self.old self.new (last_digits count base.of number) }
    {
        let mut rest = number;
        for k in (0..count).rev() {
            self.out[self.at + k] = base.last(rest);
            rest /= base.of;
        }
        self.at += count;
    }

    fn digits(&mut self, number: u64, base: Base)
        requires { Room self.old (digits 64 base.of number) }
        ensures { Pushed self.old self.new (digits 64 base.of number) }
    {
        self.last(number, base, base.count(number));
    }

    pub fn decimal(&mut self, number: u64)
        requires { Room self.old (decimal number) }
        ensures { Pushed self.old self.new (decimal number) }
    {
        self.digits(number, Base::TEN);
    }

    pub fn hexadecimal(&mut self, number: u64)
        requires { Room self.old (hexadecimal number) }
        ensures { Pushed self.old self.new (hexadecimal number) }
    {
        self.text(b"0x");
        self.digits(number, Base::SIXTEEN);
    }

    // In hexadecimal, with zeros in front to eight digits.
    pub fn padded(&mut self, number: u64)
        requires { Room self.old (padded (digits 64 16 number)) }
        ensures { Pushed self.old self.new (padded (digits 64 16 number)) }
    {
        let count = Base::SIXTEEN.count(number).max(8);
        self.last(number, Base::SIXTEEN, count);
    }

    // The integer that a number stands for in a type.
    pub fn integer(&mut self, ty: Ty, number: u64)
        requires { Room self.old (integer_text (read_as ty number)) }
        ensures { Pushed self.old self.new (integer_text (read_as ty number)) }
    {
        let size = ty.magnitude(number);
        if !ty.negative(number) {
            return self.decimal(size);
        }
        self.text(b"-");
        self.decimal(size);
    }

    // The hexadecimal beside a number that is wide.
    fn beside(&mut self, number: u64)
        requires { Room self.old (hex_beside number) }
        ensures { Pushed self.old self.new (hex_beside number) }
    {
        if number <= 9 {
            return;
        }
        self.text(b" (");
        self.hexadecimal(number);
        self.text(b")");
    }

    pub fn value(&mut self, v: Val)
        requires { Room self.old (val_text v) }
        ensures { Pushed self.old self.new (val_text v) }
    {
        if !v.known {
            return self.text(b"unknown");
        }
        self.integer(v.ty(), v.number);
        self.beside(v.number);
    }

    pub fn name(&mut self, name: Name)
        requires { Room self.old (name_text (texts_in name.names.body.now) name.number) }
        ensures { Pushed self.old self.new (name_text (texts_in name.entry.names.body.now) name.entry.number) }
    {
        self.text(name.text());
    }
}
