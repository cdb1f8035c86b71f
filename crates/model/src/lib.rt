// The store as definitions over a view of its memory (specs/), and the proof that it answers as the plain history does (proofs/).
// The code has its types from here, so that its contracts can cite the definitions as they stand.
#![tactic(auto)]

ghost use Rattle.std.specs.Prelude.{◌≡◌};
ghost use Rattle.terms.specs.Entries.{free_entry};

use terms::{ScanEntry, Stamp, Transaction};

// A reader: it sees what was committed at or before its stamp by one of the first so many commits, and what transaction `me` has changed so far (number 0: no such
// changes).
#[derive(Clone, Copy)]
pub struct Reader {
    pub stamp: Stamp,
    pub commits: u32,
    pub me: Transaction,
}

// Who set a column of a row: its insert, or the update whose tail record is at a slot.
#[derive(Clone, Copy)]
pub enum Setter {
    Insert,
    Update(usize),
}

// What a lookup finds for a row and column: the word, and who set it. The stamp that a read shows is read from the row or record that the setter names.
#[derive(Clone, Copy)]
pub struct Version {
    pub word: u32,
    pub setter: Setter,
}

pub fn free_entry() -> ScanEntry
    ensures { result ≡ free_entry }
{
    ScanEntry {
        number: 0,
        stamp: 0,
        merges: 0,
        commits: 0,
    }
}
