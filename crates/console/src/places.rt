// Where the tags lie in the memory: one behind the other.
ghost use Rattle.std.specs.Prelude.{false, ◌≡◌, replicate};
ghost use Rattle.frame.specs.Bytes.{pick};
ghost use Rattle.population.specs.Places.{nowhere};
ghost use Rattle.report.specs.Report.{any_long, places_of};

use population::places::Place;
use report::limits::too_long;

// Of more than sixteen tags only these have a place, and the call says that they are too many.
pub(crate) fn lay_out(sizes: &[u64]) -> [Place; 16]
    requires { any_long sizes.now ≡ false }
    ensures { result ≡ places_of sizes.now }
{
    let mut places = [Place { from: 0, size: 0 }; 16];
    let placed = sizes.len().min(16);
    let mut from = 0;
    for i in 0..placed {
        let size = sizes[i] as u32;
        places[i] = Place { from, size };
        from += size;
    }
    places
}

// The same for any sizes: where a tag has more bytes than it may, none has a place. No command is asked about, so their length is given as 0.
pub fn places_of(sizes: &[u64]) -> [Place; 16]
    ensures { result ≡ pick (any_long sizes.now) (replicate 16 nowhere) (places_of sizes.now) }
{
    if too_long(0, sizes) {
        return [Place { from: 0, size: 0 }; 16];
    }
    lay_out(sizes)
}
