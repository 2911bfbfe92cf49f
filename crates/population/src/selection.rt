// Which parameters a Set Select takes. A selection is the parameters of the Set Select that made it; none at all is the empty selection,
// with which a reader starts.
ghost use Rattle.std.specs.Prelude.{◌≡◌};
ghost use Rattle.population.specs.Selections.{known_action, taken, good_selection};

use frame::bytes::byte_at;

// 000, or 100 to turn the match round.
fn is_known_action(action: u8) -> bool
    ensures { result ≡ known_action action }
{
    matches!(action, 0 | 4)
}

pub fn is_taken(parameters: &[u8]) -> bool
    ensures { result ≡ taken parameters.now }
{
    let parameter = byte_at(parameters, 0);
    if parameter / 32 != 0 {
        return false;
    }
    if !is_known_action(parameter / 4 % 8) {
        return false;
    }
    if parameter % 4 == 0 {
        return false;
    }
    if byte_at(parameters, 6) != 0 {
        return false;
    }
    let bits = usize::from(byte_at(parameters, 5));
    parameters.len() == 7 + (bits + 7) / 8
}

pub fn is_good_selection(selection: &[u8]) -> bool
    ensures { result ≡ good_selection selection.now }
{
    selection.is_empty() || is_taken(selection)
}
