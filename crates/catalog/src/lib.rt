//! Operations by their names: looking one up, and whether one of a new name may be added.
#![tactic(auto)]

ghost use Rattle.std.specs.Prelude.{◌≡◌, ◌<◌, length, false, true, IfOk, Some, None, MatchOption, OnOk};
ghost use Rattle.catalog.specs.Catalog.{kept_members, new_tests};
ghost use Rattle.history.specs.Answers.{reason};
ghost use Rattle.history.specs.Calls.{first_that};
ghost use Rattle.history.specs.History.{is_name};
ghost use Rattle.names.specs.Names.{packed};
ghost use Rattle.records.specs.Operations.{operation_of};

use history::Refusal;
use names::pack;
use records::{MAX_OPERATIONS, Operation, Operations};

/// The operation of a name, if there is one.
pub fn operation_named<'a>(table: &'a Operations, name: &[u8]) -> Option<&'a Operation>
    ensures { MatchOption result (kept_members table.now name.now ≡ None) (λ o. (is_name name.now ≡ true) × (operation_of table.now (packed name.now) ≡ Some o.now)) }
{
    table.get_ref(pack(name)?)
}

/// The packed name of an operation that may be added, or why it may not.
pub fn check_new(table: &Operations, name: &[u8]) -> Result<u64, Refusal>
    ensures first { reason result ≡ first_that (new_tests table.now name.now) }
    ensures key { IfOk result (λ k. k ≡ packed name.now) }
    ensures room { OnOk result (length table.now < 32) }
    ensures fresh { IfOk result (λ k. operation_of table.now k ≡ None) }
{
    let key = pack(name).ok_or(Refusal::BadName)?;
    if table.get_ref(key).is_some() {
        return Err(Refusal::NameTaken);
    }
    if table.count() >= MAX_OPERATIONS {
        return Err(Refusal::OperationsFull);
    }
    Ok(key)
}
