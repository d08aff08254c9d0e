//! An ordered table over a slice of records, one text for every kind of record.
//!
//! Each kind of record says what its key is (`Keyed`), and the type of the key how keys are ordered (`Key`).
#![tactic(auto)]

ghost use Rattle.std.specs.Prelude.{◌≡◌, ◌-◌, ◌<◌, length, take, MatchResult};
ghost use Rattle.std.specs.declared.cmp.Ordering.{Ordering};
ghost use Rattle.table.specs.Tables.{Found, Gap, Lacks, Rising, Stands, placed};
ghost use Rattle.std.proofs.Common.{rules};

/// A key: its order is total, and tells apart all that is not the same.
pub trait Key: Ord + Copy {
    ghost exact: { (x y : Self) → Self.cmp x y ≡ Ordering.Equal → x ≡ y };
}

impl Key for u16 {
    ghost exact = { Prim.search rules };
}

impl Key for u64 {
    ghost exact = { Prim.search rules };
}

/// A kind of record, found by its key.
pub trait Keyed {
    type Key: Key;

    ghost key_of: { Self → Self.Key };

    fn key(&self) -> Self::Key
        ensures { result ≡ key_of self.now };
}

/// The position of the record with this key in a table that rises by key, or none if no record has it.
pub fn find<T: Keyed>(table: &[T], key: &T::Key) -> Option<usize>
    requires { Rising T.Key.Ord.cmp T.Keyed.key_of table.now }
    ensures { Stands T.Keyed.key_of key.now table.now result }
{
    search(table, key).ok()
}

/// Puts a record, whose key is new, in its place in a table of which the last place is free.
pub fn insert<T: Keyed + Copy>(table: &mut [T], item: T)
    requires room { 0 < length table.old }
    requires rises { Rising T.Key.Ord.cmp T.Keyed.key_of (take (length table.old - 1) table.old) }
    requires fresh { Lacks T.Keyed.key_of (T.Keyed.key_of item) (take (length table.old - 1) table.old) }
    ensures list { table.new ≡ placed T.Key.Ord.cmp T.Keyed.key_of item (take (length table.old - 1) table.old) }
    ensures rises { Rising T.Key.Ord.cmp T.Keyed.key_of table.new }
{
    let last = table.len() - 1;
    let at = search(&table[..last], &item.key()).unwrap_err();
    table[last] = item;
    table[at..].rotate_right(1);
}

// Where the record with a key is, or the gap where it would stand.
fn search<T: Keyed>(table: &[T], key: &T::Key) -> Result<usize, usize>
    requires { Rising T.Key.Ord.cmp T.Keyed.key_of table.now }
    ensures { MatchResult result (Found T.Keyed.key_of key.now table.now) (Gap T.Key.Ord.cmp T.Keyed.key_of key.now table.now) }
{
    table.binary_search_by_key(key, |record| record.key())
}
