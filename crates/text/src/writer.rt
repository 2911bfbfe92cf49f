// The writer, with the words and spaces that it puts, and how many of them a column still takes.
ghost use Rattle.std.specs.Prelude.{◌≡◌, ◌-◌, ◌+◌, ◌≤◌, ◌↔◌, IsTrue, length, nat_le};
ghost use Rattle.text.specs.Laying.{spaces};
ghost use Rattle.text.specs.Writing.{Lays};

use frame::bytes::fits;

// A lent buffer, and the place in it where the next piece goes.
#[derive(Drop)]
pub struct Writer<'a> {
    pub buffer: &'a mut [u8],
    pub at: usize,
}

impl Writer<'_> {
    // Whether n more bytes have room.
    pub fn has_room(&self, n: usize) -> bool
        ensures { result ≡ nat_le (self.now.at + n) (length self.now.buffer.now) }
    {
        fits(self.at, n, self.buffer.len())
    }

    pub fn put_text(&mut self, text: &[u8])
        ensures { Lays text.now self.old self.new }
    {
        if self.has_room(text.len()) {
            let at = self.at;
            let next = at + text.len();
            self.buffer[at..next].copy_from_slice(text);
            self.at = next;
        }
    }

    pub fn put_spaces(&mut self, n: usize)
        ensures { Lays (spaces n) self.old self.new }
    {
        if self.has_room(n) {
            let at = self.at;
            let next = at + n;
            self.buffer[at..next].fill(b' ');
            self.at = next;
        }
    }
}

// How many places of `width` are still free where so many are used: none where more are.
pub fn missing(width: usize, used: usize) -> usize
    ensures { result ≡ width - used }
{
    width.saturating_sub(used)
}
