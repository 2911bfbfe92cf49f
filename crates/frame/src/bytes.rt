// Reading bytes and numbers out of a slice, at any place: what lies behind the end counts as 0. And whether bytes are there.
ghost use Rattle.std.specs.Prelude.{◌≡◌, ◌+◌, nat_le};
ghost use Rattle.frame.specs.Bytes.{byte, number, double, reaches};

#[tactic(auto, unfolding(crate::specs::Bytes::byte))]
pub fn byte_at(bytes: &[u8], i: usize) -> u8
    ensures { result ≡ byte bytes.now i }
{
    bytes.get(i).copied().unwrap_or(0)
}

// Two bytes, high first.
#[tactic(auto, using(crate::proofs::Numbers::number_behind), unfolding(crate::specs::Bytes::number))]
pub fn number_at(bytes: &[u8], i: usize) -> u16
    ensures { result ≡ number bytes.now i }
{
    if i < bytes.len() {
        return u16::from_be_bytes([byte_at(bytes, i), byte_at(bytes, i + 1)]);
    }
    0
}

// Four bytes, high first.
#[tactic(auto, using(crate::proofs::Numbers::double_behind), unfolding(crate::specs::Bytes::double))]
pub fn double_at(bytes: &[u8], i: usize) -> u32
    ensures { result ≡ double bytes.now i }
{
    if i < bytes.len() {
        return u32::from(number_at(bytes, i)) * 65536 + u32::from(number_at(bytes, i + 2));
    }
    0
}

// Whether `at` and n more come to no more than `room`, tested by subtraction, so that no sum can wrap.
pub fn fits(at: usize, n: usize, room: usize) -> bool
    ensures { result ≡ nat_le (at + n) room }
{
    at <= room && n <= room - at
}

// Whether the n bytes from i on are all there.
pub fn reaches(bytes: &[u8], i: usize, n: usize) -> bool
    ensures { result ≡ reaches bytes.now i n }
{
    fits(i, n, bytes.len())
}
