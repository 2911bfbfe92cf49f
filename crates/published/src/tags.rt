// The sample tag of document 01, and the same tag with two bytes changed: an image for each published answer.
use samples::SAMPLE;

// The sample tag with these bytes at `place` and behind it; with no such place it is the sample tag itself.
pub(crate) fn with_bytes(place: usize, first: u8, second: u8) -> [u8; 86] {
    let mut image = SAMPLE;
    if place < 85 {
        image[place] = first;
        image[place + 1] = second;
    }
    image
}

pub(crate) fn sample() -> [u8; 86] {
    SAMPLE
}

// State 2.
pub(crate) fn out_of_field() -> [u8; 86] {
    with_bytes(22, 2, 0xC9)
}

// Access password 0000FF01.
pub(crate) fn other_password() -> [u8; 86] {
    with_bytes(30, 0xFF, 0x01)
}

// A User bank of one word.
pub(crate) fn short_user() -> [u8; 86] {
    with_bytes(16, 0, 1)
}

// The access pair is 01: free, and permalocked.
pub(crate) fn permalocked() -> [u8; 86] {
    with_bytes(20, 0x00, 0x40)
}

// Kill password 00000000.
pub(crate) fn no_kill_password() -> [u8; 86] {
    with_bytes(26, 0, 0)
}
