// What the rules see of an image (document 01, "The image").
ghost use Rattle.std.specs.Prelude.{◌≡◌, ◌+◌, ◌*◌, ◌/◌, ◌<◌};
ghost use Rattle.image.specs.Spans.{EpcSpan};
ghost use Rattle.image.specs.Image.{bank_at, view, bank_of};

use frame::bytes::{byte_at, number_at};

// A bank's place in the image: how many words it has, and where its first byte stands.
#[derive(Clone, Copy)]
pub struct Bank {
    pub words: u16,
    pub offset: u16,
}

// What the rules see of an image. No byte of a password is in it.
#[derive(Clone, Copy)]
pub struct View {
    pub size: usize,
    pub format: u16,
    pub total: u16,
    pub reserved: Bank,
    pub epc: Bank,
    pub tid: Bank,
    pub user: Bank,
    pub locks: u16,
    pub state: u8,
    pub pc: u16,
}

#[inline(always)]
#[tactic(auto, unfolding(crate::specs::Image::bank_at))]
fn bank_at(image: &[u8], i: usize) -> Bank
    requires { i < 24 }
    ensures { result ≡ bank_at image.now i }
{
    Bank {
        words: number_at(image, i),
        offset: number_at(image, i + 2),
    }
}

#[inline(always)]
#[tactic(auto, unfolding(crate::specs::Image::view, crate::specs::Image::bank_at))]
fn read_view(image: &[u8]) -> View
    ensures { result ≡ view image.now }
{
    let epc = bank_at(image, 8);
    View {
        size: image.len(),
        format: number_at(image, 0),
        total: number_at(image, 2),
        reserved: bank_at(image, 4),
        epc,
        tid: bank_at(image, 12),
        user: bank_at(image, 16),
        locks: number_at(image, 20),
        state: byte_at(image, 22),
        pc: number_at(image, usize::from(epc.offset) + 2),
    }
}

#[cold]
#[inline(never)]
fn short_view(image: &[u8]) -> View
    ensures { result ≡ view image.now }
{
    read_view(image)
}

// Of any image, also a bad one: what lies behind its end counts as 0. One test shows that the whole header is there, and the compiler leaves out those of
// its bytes.
#[inline(always)]
pub fn view_of(image: &[u8]) -> View
    ensures { result ≡ view image.now }
{
    if image.len() < 24 {
        return short_view(image);
    }
    read_view(image)
}

// Where the PC and the EPC stand, and how many bytes they have: all that an answer's tail needs of the header.
#[derive(Clone, Copy)]
pub struct Span {
    pub from: usize,
    pub count: usize,
}

impl Span {
    // The PC and its L words, where the EPC bank starts at `offset`.
    pub(crate) fn of_epc(offset: u16, pc: u16) -> Span
        ensures from { result.from ≡ offset + 2 }
        ensures count { result.count ≡ 2 + 2 * (pc / 2048) }
    {
        Span {
            from: usize::from(offset) + 2,
            count: 2 + 2 * usize::from(pc / 2048),
        }
    }
}

// Of any image, also a bad one: what lies behind its end counts as 0.
#[tactic(auto, unfolding(crate::specs::Image::view, crate::specs::Image::bank_at))]
pub fn epc_span(image: &[u8]) -> Span
    ensures { EpcSpan image.now result }
{
    let offset = number_at(image, 10);
    Span::of_epc(offset, number_at(image, usize::from(offset) + 2))
}

#[tactic(auto, using(std::proofs::lemmas::Bool::Decides::nat_tests), unfolding(crate::specs::Image::bank_of, frame::specs::Bytes::pick))]
pub fn bank_of(v: View, bank: usize) -> Bank
    ensures { result ≡ bank_of v bank }
{
    match bank {
        0 => v.reserved,
        1 => v.epc,
        2 => v.tid,
        _ => v.user,
    }
}
