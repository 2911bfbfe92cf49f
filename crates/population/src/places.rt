// Where the tags' images stand in the memory, and whether all of them are well placed and good.
ghost use Rattle.std.specs.Prelude.{◌≡◌, ◌+◌, ◌<◌, ◌≤◌, true, false, MatchOption};
ghost use Rattle.population.specs.Places.{inside, image_at, apart, apart_below, good_alone, good_at, good_population, nowhere};

use image::good::is_good;

// The bytes of one tag's image.
#[derive(Clone, Copy)]
pub struct Place {
    pub from: u32,
    pub size: u32,
}

impl Place {
    // The first byte behind the image: in 64 bits, where no sum wraps.
    fn end(self) -> u64
        ensures { result ≡ self.from + self.size }
    {
        u64::from(self.from) + u64::from(self.size)
    }

    // The image, or none where the place leaves the memory.
    pub fn image_in(self, memory: &[u8]) -> Option<&[u8]>
        ensures { MatchOption result (inside memory.now self ≡ false)
            (λ image. (inside memory.now self ≡ true) × (image.now ≡ image_at memory.now self)) }
    {
        memory.get(self.from as usize..self.end() as usize)
    }

    // The one ends before the other begins.
    fn is_apart_from(self, other: Place) -> bool
        ensures { result ≡ apart self other }
    {
        self.end() <= u64::from(other.from) || other.end() <= u64::from(self.from)
    }

    // The place is in the memory, and the image there is good.
    #[inline(always)]
    fn is_good_in(self, memory: &[u8]) -> bool
        ensures { result ≡ good_alone memory.now self }
    {
        match self.image_in(memory) {
            Some(image) => is_good(image),
            None => false,
        }
    }
}

// How many tags there are, sixteen at most in a good population, and where the image of each stands in one lent memory. The places behind theirs are not looked
// at.
#[derive(Clone, Copy)]
pub struct Population {
    pub places: [Place; 16],
    pub tags: usize,
}

impl Population {
    // Place i overlaps none of those before it.
    fn is_apart_below(&self, i: usize) -> bool
        requires { i < 16 }
        ensures { result ≡ apart_below self.now.places i }
    {
        let place = self.places[i];
        for j in 0..i {
            if !place.is_apart_from(self.places[j]) {
                return false;
            }
        }
        true
    }

    // Place i is in the memory and overlaps none before it, and the image there is good.
    fn is_good_at(&self, memory: &[u8], i: usize) -> bool
        requires { i < 16 }
        ensures { result ≡ good_at memory.now self.now.places i }
    {
        self.is_apart_below(i) && self.places[i].is_good_in(memory)
    }

    // For places in any order: each is held against all before it.
    fn is_good_scattered(&self, memory: &[u8]) -> bool
        requires { self.now.tags ≤ 16 }
        ensures { result ≡ good_population memory.now self.now.tags self.now.places }
    {
        for i in 0..self.tags {
            if !self.is_good_at(memory, i) {
                return false;
            }
        }
        true
    }

    // Every call asks this. Places that rise, each behind the end of the one before, overlap nowhere: one pass shows it. Only where they do not rise are they
    // held against one another.
    pub fn is_good(&self, memory: &[u8]) -> bool
        ensures { result ≡ good_population memory.now self.now.tags self.now.places }
    {
        if 16 < self.tags {
            return false;
        }
        let mut end = 0;
        for i in 0..self.tags {
            let place = self.places[i];
            if u64::from(place.from) < end {
                return self.is_good_scattered(memory);
            }
            if !place.is_good_in(memory) {
                return false;
            }
            end = place.end();
        }
        true
    }
}
