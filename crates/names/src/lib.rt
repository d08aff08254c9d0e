//! Operation names packed into one number each, which stand in the order of the names.
#![tactic(auto)]

ghost use Rattle.history.specs.History.{is_letter, is_name};
ghost use Rattle.names.specs.Names.{PackingKeeps, PackingOrders, PackingTells, packed};
ghost use Rattle.std.specs.Prelude.{◌≡◌, false, true, MatchOption};

pub use history::MAX_NAME;

/// The fewest bytes of a name.
const MIN_NAME: usize = 1;

/// Whether a byte may stand in a name: A to Z or 0 to 9.
pub fn is_letter(b: u8) -> bool
    ensures { result ≡ is_letter b }
{
    matches!(b, b'A'..=b'Z' | b'0'..=b'9')
}

/// A name as one number of eight bytes, first byte highest, padded at the end with zeros; none of what is no name.
pub fn pack(name: &[u8]) -> Option<u64>
    ensures { MatchOption result (is_name name.now ≡ false) (λ n. (is_name name.now ≡ true) × (n ≡ packed name.now)) }
{
    if !(MIN_NAME..=MAX_NAME).contains(&name.len()) || !name.iter().all(|b| is_letter(*b)) {
        return None;
    }
    let mut places = [0; MAX_NAME];
    places[..name.len()].copy_from_slice(name);
    Some(u64::from_be_bytes(places))
}

/// Packed names stand in the order of the names.
pub fn packing_orders()
    ensures { PackingOrders }
{}

/// Names with the same number are the same.
pub fn packing_keeps()
    ensures { PackingKeeps }
{}

/// Two names are found the same just where their numbers are.
pub fn packing_tells()
    ensures { PackingTells }
{}
