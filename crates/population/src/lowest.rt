// The tag that a command is for: the lowest-numbered one that is present and matches the selection.
ghost use Rattle.std.specs.Prelude.{◌≡◌};
ghost use Rattle.population.specs.Lowest.{selected, lowest};

use crate::matching::is_match;
use crate::places::{Place, Population};
use frame::bytes::byte_at;

// The tag at a place is present and matches.
fn is_selected(memory: &[u8], place: Place, selection: &[u8]) -> bool
    ensures { result ≡ selected memory.now selection.now place }
{
    match place.image_in(memory) {
        Some(image) => byte_at(image, 22) == 0 && is_match(image, selection),
        None => false,
    }
}

impl Population {
    // The number and the place of the lowest tag from number `start` on. More than sixteen tags are none.
    #[inline(always)]
    pub fn lowest(&self, memory: &[u8], selection: &[u8], start: usize) -> Option<(usize, Place)>
        ensures { result ≡ lowest memory.now self.now.tags self.now.places selection.now start }
    {
        if 16 < self.tags {
            return None;
        }
        for i in start..self.tags {
            let place = self.places[i];
            if is_selected(memory, place, selection) {
                return Some((i, place));
            }
        }
        None
    }
}
