// Whether an image is good (document 01, "The image"): one test after another, and the first that fails settles it.
ghost use Rattle.std.specs.Prelude.{◌≡◌};
ghost use Rattle.image.specs.Image.{end_of, view, good_header, good_banks, good_tag, good_crc, good};

use crate::crc_word::crc_of_span;
use crate::header::{Bank, Span, View, view_of};
use frame::bytes::number_at;

// Where a bank ends.
#[tactic(auto, unfolding(crate::specs::Image::end_of, crate::specs::Image::word_at))]
fn end_of(b: Bank) -> usize
    ensures { result ≡ end_of b }
{
    usize::from(b.offset) + 2 * usize::from(b.words)
}

#[tactic(auto, using(std::proofs::lemmas::Bool::Decides::nat_tests), unfolding(crate::specs::Image::good_header, frame::specs::Bytes::all))]
fn is_good_header(v: View) -> bool
    ensures { result ≡ good_header v }
{
    24 <= v.size && v.format == 1 && usize::from(v.total) == v.size && v.size <= 2048
}

#[tactic(auto, using(std::proofs::lemmas::Bool::Decides::nat_tests), unfolding(crate::specs::Image::good_banks, frame::specs::Bytes::all))]
fn is_good_banks(v: View) -> bool
    ensures { result ≡ good_banks v }
{
    v.reserved.words == 4
        && 2 <= v.epc.words
        && v.epc.words <= 33
        && 1 <= v.tid.words
        && v.tid.words <= 32
        && v.user.words <= 512
        && 24 <= v.reserved.offset
        && end_of(v.reserved) <= usize::from(v.epc.offset)
        && end_of(v.epc) <= usize::from(v.tid.offset)
        && end_of(v.tid) <= usize::from(v.user.offset)
        && end_of(v.user) <= usize::from(v.total)
}

fn is_good_tag(v: View) -> bool
    ensures { result ≡ good_tag v }
{
    v.locks < 1024 && v.state <= 2 && v.pc / 2048 + 2 <= v.epc.words
}

fn is_good_crc(image: &[u8], v: View) -> bool
    requires { v ≡ view image.now }
    ensures { result ≡ good_crc image.now }
{
    let place = Span::of_epc(v.epc.offset, v.pc);
    number_at(image, usize::from(v.epc.offset)) == crc_of_span(image, place)
}

#[tactic(auto, using(std::proofs::lemmas::Bool::Decides::nat_tests), unfolding(crate::specs::Image::good))]
pub fn is_good(image: &[u8]) -> bool
    ensures { result ≡ good image.now }
{
    if image.len() < 24 {
        return false;
    }
    let v = view_of(image);
    is_good_header(v) && is_good_banks(v) && is_good_tag(v) && is_good_crc(image, v)
}
