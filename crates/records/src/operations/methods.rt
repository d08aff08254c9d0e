//! Looking up and adding operations.

ghost use Rattle.std.specs.Ordering.{nat_cmp};
ghost use Rattle.std.specs.Prelude.{◌≡◌, ℕ, ◌+◌, ◌<◌, ◌≤◌, if◌then◌else◌, Some, None, MatchOption, nat_eq, length};
ghost use Rattle.table.specs.Tables.{Rising};
ghost use Rattle.records.specs.declared.operations.Operation.{Operation};
ghost use Rattle.records.specs.Operations.{FindsOperation, SelectsCut, cut_of, row_of, operation_at, operation_of};

use super::{Cut, Cuts, MAX_MEMBERS, MAX_OPERATIONS, Operation, Operations, UnknownCut};
use gathering::{ROW, Row};

impl TryFrom<u16> for Cut {
    type Error = UnknownCut;

    ghost try_from_gives = { SelectsCut };

    fn try_from(number: u16) -> Result<Cut, UnknownCut> {
        match number {
            1 => Ok(Cut::JointPast),
            2 => Ok(Cut::WholePast),
            3 => Ok(Cut::FirstReach),
            4 => Ok(Cut::JointReach),
            _ => Err(UnknownCut(number)),
        }
    }
}

impl Cuts {
    /// The row of one of them.
    pub fn row(&self, cut: Cut) -> Row
        ensures { result ≡ row_of self.now cut }
    {
        match cut {
            Cut::JointPast => self.joint_past,
            Cut::WholePast => self.whole_past,
            Cut::FirstReach => self.first_reach,
            Cut::JointReach => self.joint_reach,
        }
    }
}

impl Operation {
    /// A cut by its number: joint past (1), whole past (2), first reach (3), joint reach (4).
    pub fn cut(&self, w: u16) -> Option<Row>
        ensures { result ≡ cut_of self.now w }
    {
        let cut = Cut::try_from(w).ok()?;
        Some(self.cuts.row(cut))
    }
}

impl Operations {
    /// No operations.
    pub fn new() -> Self
        ensures len { length result ≡ 0 }
    {
        let zeros = Row { counts: [0; ROW] };
        Operations {
            records: [Operation {
                name: 0,
                len: 0,
                members: [0; MAX_MEMBERS],
                first: zeros,
                last: zeros,
                cuts: Cuts {
                    joint_past: zeros,
                    whole_past: zeros,
                    first_reach: zeros,
                    joint_reach: zeros,
                },
            }; MAX_OPERATIONS],
            len: 0,
        }
    }

    /// Forgets all operations.
    pub fn clear(&mut self)
        ensures len { length self.new ≡ 0 }
    {
        self.len = 0;
    }

    /// How many operations there are: 32 at most, of rising names.
    pub fn count(&self) -> usize
        ensures len { result ≡ length self.now }
        ensures few { length self.now ≤ 32 }
        ensures rises { Rising nat_cmp (λ (o : Operation). o.name) self.now }
    {
        self.len
    }

    /// The position of the operation of this name, if there is one.
    pub fn find(&self, name: u64) -> Option<usize>
        ensures { FindsOperation self.now name result }
    {
        table::find(&self.records[..self.len], &name)
    }

    /// The operation at a position, if there is one.
    pub fn at(&self, position: usize) -> Option<Operation>
        ensures { result ≡ operation_at self.now position }
    {
        self.records[..self.len].get(position).copied()
    }

    /// The operation of this name, if there is one.
    pub fn get(&self, name: u64) -> Option<Operation>
        ensures { result ≡ operation_of self.now name }
    {
        self.get_ref(name).copied()
    }

    /// The operation of this name, if there is one, where it lies.
    pub fn get_ref(&self, name: u64) -> Option<&Operation>
        ensures { MatchOption result (operation_of self.now name ≡ None) (λ o. operation_of self.now name ≡ Some o.now) }
    {
        let held = &self.records[..self.len];
        let at = table::find(held, &name)?;
        Some(&held[at])
    }

    /// Adds an operation whose name is new.
    pub fn insert(&mut self, item: Operation)
        requires room { length self.old < 32 }
        requires fresh { operation_of self.old item.name ≡ None }
        ensures len { length self.new ≡ length self.old + 1 }
        ensures sets { (name : ℕ) → operation_of self.new name ≡ (if nat_eq item.name name then Some item else operation_of self.old name) }
    {
        table::insert(&mut self.records[..self.len + 1], item);
        self.len += 1;
    }
}
