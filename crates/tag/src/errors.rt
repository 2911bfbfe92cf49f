// Why a command is refused, and the byte that the error frame has for it (document 01, "The commands, checks in order").
ghost use Rattle.std.specs.Prelude.{◌≡◌};
ghost use Rattle.tag.specs.Errors.{plain_byte, tag_byte};
ghost use Rattle.tag.specs.declared.errors.Refusal.TheVariants.{Plain, Tag};

// A plain error, code FF and one byte: no tag is there that may do what the command asks.
#[derive(Clone, Copy)]
pub enum PlainError {
    NotInventoried = 0x15,
    NotRead = 0x09,
    NotWritten = 0x10,
    // Also of a tag that is not secured.
    NotLocked = 0x13,
    // Also where the kill password differs.
    NotKilled = 0x12,
    // The code is not listed, or a field is wrong.
    NoCommand = 0x17,
}

// A tag error, code FF, one byte and the tail: the tag is there, and refuses.
#[derive(Clone, Copy)]
pub enum TagError {
    WrongPassword = 0x16,
    ReadOutside = 0xA3,
    ReadLocked = 0xA4,
    // The bank has no such words, or the new PC counts more than it has.
    WriteOutside = 0xB3,
    // A region is locked, or EPC word 0 is named.
    WriteLocked = 0xB4,
    NoUserWords = 0xC3,
    // A pair whose permalock bit is set would change.
    Permalocked = 0xC4,
    NoKillPassword = 0xD0,
}

#[derive(Clone, Copy)]
pub enum Refusal {
    Plain(PlainError),
    Tag(TagError),
}

impl From<PlainError> for u8 {
    ghost from_gives = { λ e b. b ≡ plain_byte e };

    #[tactic(auto, unfolding(crate::specs::Errors::plain_byte))]
    fn from(e: PlainError) -> u8 {
        e as u8
    }
}

impl From<TagError> for u8 {
    ghost from_gives = { λ e b. b ≡ tag_byte e };

    #[tactic(auto, unfolding(crate::specs::Errors::tag_byte))]
    fn from(e: TagError) -> u8 {
        e as u8
    }
}

impl From<PlainError> for Refusal {
    ghost from_gives = { λ e r. r ≡ Plain e };

    fn from(e: PlainError) -> Refusal {
        Refusal::Plain(e)
    }
}

impl From<TagError> for Refusal {
    ghost from_gives = { λ e r. r ≡ Tag e };

    fn from(e: TagError) -> Refusal {
        Refusal::Tag(e)
    }
}
