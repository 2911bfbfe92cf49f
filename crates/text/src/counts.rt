// The line of the counts, and that of a refusal.
ghost use Rattle.std.specs.Prelude.{◌+◌, length};
ghost use Rattle.text.specs.Counts.{count_part, tally_part, counts_line, refused_line};
ghost use Rattle.text.specs.Writing.{LaysWithin, Puts};

use crate::writer::Writer;
use reader::tally::Tally;

impl Writer<'_> {
    // A word and the number behind it.
    pub fn put_count(&mut self, word: &[u8], n: u64)
        ensures { LaysWithin (length word.now + 20) (count_part word.now n) self.old self.new }
    {
        if self.has_room(word.len() + 20) {
            self.put_text(word);
            self.put_decimal(n);
        }
    }

    // The seven counts of the tally, the reasons of drops in their order.
    fn put_tally(&mut self, tally: Tally)
        ensures { Puts 165 (tally_part tally) self.old self.new }
    {
        self.put_count(b"GOOD ", u64::from(tally.good));
        self.put_count(b" ERROR ", u64::from(tally.error));
        self.put_count(b" DROPPED ", u64::from(tally.header));
        self.put_count(b" ", u64::from(tally.kind));
        self.put_count(b" ", u64::from(tally.long));
        self.put_count(b" ", u64::from(tally.check));
        self.put_count(b" ", u64::from(tally.end));
    }

    // Seven counts and what is left. Each number has room for its twenty digits, or nothing is put.
    pub fn put_counts(&mut self, tally: Tally, left: usize)
        ensures { LaysWithin 192 (counts_line tally left) self.old self.new }
    {
        if self.has_room(192) {
            self.put_tally(tally);
            self.put_count(b" LEFT ", left as u64);
            self.put_text(b"\n");
        }
    }

    pub fn put_refused(&mut self, number: u64)
        ensures { LaysWithin 29 (refused_line number) self.old self.new }
    {
        if self.has_room(29) {
            self.put_count(b"REFUSED ", number);
            self.put_text(b"\n");
        }
    }
}
