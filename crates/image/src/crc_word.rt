// The CRC word (request P4): what EPC word 0 of a good image holds.
ghost use Rattle.std.specs.Prelude.{◌≡◌};
ghost use Rattle.crc.specs.Crc.{tag_crc};
ghost use Rattle.frame.specs.Bytes.{part};
ghost use Rattle.image.specs.Image.{crc_word};

use crate::header::{Span, epc_span};

// The CRC-16 of the bytes of a span: what lies behind the end is left out.
pub(crate) fn crc_of_span(image: &[u8], place: Span) -> u16
    ensures { result ≡ tag_crc (part image.now place.from place.count) }
{
    let from = place.from.min(image.len());
    let count = place.count.min(image.len() - from);
    crc::shifts::tag_crc(&image[from..from + count])
}

// The CRC-16 of the PC and the EPC. Of any image, also a bad one: what lies behind its end is left out.
pub fn crc_of_epc(image: &[u8]) -> u16
    ensures { result ≡ crc_word image.now }
{
    crc_of_span(image, epc_span(image))
}
