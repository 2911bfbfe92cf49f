// Lock pairs, and how a tag stands to a password (document 01, "Lock bits").
ghost use Rattle.std.specs.Prelude.{◌≡◌};
ghost use Rattle.tag.specs.Locks.{pairs, standing_of, kill_standing_of, is_secured};

// The lock bits, a pair for each region.
#[derive(Clone, Copy)]
pub struct Pairs {
    pub kill: u8,
    pub access: u8,
    pub epc: u8,
    pub tid: u8,
    pub user: u8,
}

// How a tag stands to the access password that a command carries.
#[derive(Clone, Copy)]
pub enum Standing {
    Secured,
    Open,
    Wrong,
}

// How a tag stands to the kill password that a Kill carries.
#[derive(Clone, Copy)]
pub enum KillStanding {
    NoneStored,
    Equal,
    Different,
}

#[tactic(auto, unfolding(crate::specs::Locks::pairs))]
pub(crate) fn pairs_of(bits: usize) -> Pairs
    ensures { result ≡ pairs bits }
{
    Pairs {
        kill: (bits / 256 % 4) as u8,
        access: (bits / 64 % 4) as u8,
        epc: (bits / 16 % 4) as u8,
        tid: (bits / 4 % 4) as u8,
        user: (bits % 4) as u8,
    }
}

#[tactic(auto, using(crate::proofs::Tests::tests), unfolding(crate::specs::Locks::standing_of, frame::specs::Bytes::pick))]
pub(crate) fn standing_of(stored: usize, given: usize) -> Standing
    ensures { result ≡ standing_of stored given }
{
    if given == stored {
        Standing::Secured
    } else if given == 0 {
        Standing::Open
    } else {
        Standing::Wrong
    }
}

#[tactic(auto, using(crate::proofs::Tests::tests), unfolding(crate::specs::Locks::kill_standing_of, frame::specs::Bytes::pick))]
pub(crate) fn kill_standing_of(stored: usize, given: usize) -> KillStanding
    ensures { result ≡ kill_standing_of stored given }
{
    if stored == 0 {
        KillStanding::NoneStored
    } else if given == stored {
        KillStanding::Equal
    } else {
        KillStanding::Different
    }
}

#[tactic(auto, unfolding(crate::specs::Locks::is_secured))]
pub(crate) fn is_secured(s: Standing) -> bool
    ensures { result ≡ is_secured s }
{
    matches!(s, Standing::Secured)
}
