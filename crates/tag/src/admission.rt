// The checks that come first for every command on a tag (document 01, "The commands, checks in order").
ghost use Rattle.std.specs.Prelude.{◌≡◌, Ok, Err};
ghost use Rattle.frame.specs.Bytes.{pick};
ghost use Rattle.tag.specs.Commands.{gone};
ghost use Rattle.tag.specs.Locks.{is_wrong};
ghost use Rattle.tag.specs.declared.errors.Refusal.TheVariants.{Plain, Tag};
ghost use Rattle.tag.specs.declared.errors.TagError.TheVariants.{WrongPassword};

use crate::errors::{PlainError, Refusal, TagError};
use crate::locks::Standing;
use image::header::View;

// The tag is neither killed nor out of the field.
#[tactic(auto, using(crate::proofs::Tests::tests), unfolding(crate::specs::Commands::gone, frame::specs::Bytes::pick))]
pub(crate) fn admit_present(v: View, e: PlainError) -> Result<(), PlainError>
    ensures { result ≡ pick (gone v) (Err e) (Ok tt) }
{
    if v.state == 0 { Ok(()) } else { Err(e) }
}

// And the access password that the command carries is not a wrong one.
#[tactic(auto, using(crate::proofs::Tests::tests), unfolding(frame::specs::Bytes::pick, crate::specs::Commands::gone))]
pub(crate) fn admit(v: View, s: Standing, e: PlainError) -> Result<(), Refusal>
    ensures { result ≡ pick (gone v) (Err (Plain e)) (pick (is_wrong s) (Err (Tag WrongPassword)) (Ok tt)) }
{
    admit_present(v, e)?;
    match s {
        Standing::Wrong => Err(Refusal::Tag(TagError::WrongPassword)),
        Standing::Secured | Standing::Open => Ok(()),
    }
}
