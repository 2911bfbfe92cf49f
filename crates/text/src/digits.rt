// Numbers as text.
ghost use Rattle.std.specs.Prelude.{◌≡◌, ◌≤◌, ◌<◌};
ghost use Rattle.text.specs.Digits.{hex_digit, hex_byte, width as width_of, decimal};
ghost use Rattle.text.specs.Writing.{Lays, PutsRight};

use crate::writer::{Writer, missing};

fn hex_digit(n: u8) -> u8
    requires { n < 16 }
    ensures { result ≡ hex_digit n }
{
    if n < 10 { 48 + n } else { 55 + n }
}

// How many decimal digits a number has.
pub fn width(n: u64) -> usize
    ensures value { result ≡ width_of n }
    ensures upper_bound { result ≤ 20 }
{
    n.max(1).ilog10() as usize + 1
}

impl Writer<'_> {
    // A byte in two hex digits.
    pub fn put_hex(&mut self, b: u8)
        ensures { Lays (hex_byte b) self.old self.new }
    {
        self.put_text(&[hex_digit(b / 16), hex_digit(b % 16)]);
    }

    // A number in decimal, from its last digit to its first.
    pub fn put_decimal(&mut self, n: u64)
        ensures { Lays (decimal n) self.old self.new }
    {
        let w = width(n);
        if self.has_room(w) {
            let at = self.at;
            let mut left = n;
            for i in (0..w).rev() {
                self.buffer[at + i] = 48 + (left % 10) as u8;
                left /= 10;
            }
            self.at = at + w;
        }
    }

    // A number at the right of so many columns, the first of which is at the writer's place.
    pub fn put_right(&mut self, columns: usize, n: u64)
        ensures { PutsRight columns n self.old self.new }
    {
        if self.has_room(columns) {
            self.at += missing(columns, width(n));
            self.put_decimal(n);
        }
    }
}
