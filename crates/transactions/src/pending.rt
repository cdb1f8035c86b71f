// The record of an open transaction, by value: its number, how many changes it has noted, and its keeper. Begin makes it; insert, update and delete take the keeper from it
// and note a change in it; commit and abort take it back and settle what bears the number that it hands back; the own read asks it whose pending changes count. In the memory
// it is one word each of Opens, Changes and OpenKeeper.
ghost use Rattle.std.specs.Prelude.{◌≡◌, ◌<◌};
ghost use Rattle.terms.specs.Measures.{most_transactions};
ghost use Rattle.layout.specs.View.{view_of, Suffices};
ghost use Rattle.model.specs.Stored.{next_word};
ghost use Rattle.transactions.specs.Pending.{fresh, one_more, handed_back, owner, free_record, pending_at, pending_put};

use layout::{Region, Sizes};
use regions::{read, read_later, write, write_later};
use terms::Transaction;

#[derive(Clone, Copy)]
pub struct Pending {
    pub number: Transaction,
    pub changes: u32,
    pub keeper: u32,
}

// The number after n. The highest goes round, so that every memory has an answer.
pub fn next_word(n: u32) -> u32
    ensures { result ≡ next_word n }
{
    n.wrapping_add(1)
}

impl Pending {
    // A transaction that has changed nothing.
    pub fn begin(t: Transaction, keeper: u32) -> Pending
        ensures { result ≡ fresh t keeper }
    {
        Pending {
            number: t,
            changes: 0,
            keeper,
        }
    }

    // One change more.
    pub fn note(self) -> Pending
        ensures { result ≡ one_more self }
    {
        Pending {
            changes: next_word(self.changes),
            ..self
        }
    }

    // The transaction that it was begun for.
    pub fn hand_back(self) -> Transaction
        ensures { result ≡ handed_back self }
    {
        self.number
    }

    // Whose pending changes an own read adds: with nothing noted, nobody's.
    pub fn owner(self) -> Transaction
        ensures { result.0 ≡ owner self }
    {
        if self.changes == 0 {
            Transaction(0)
        } else {
            self.number
        }
    }
}

// The record of a free entry.
pub fn free_record() -> Pending
    ensures { result ≡ free_record }
{
    Pending {
        number: Transaction(0),
        changes: 0,
        keeper: 0,
    }
}

// The record at an index of Opens.
pub fn pending_at(mem: &[u8], s: Sizes, index: usize) -> Pending
    requires suffices { Suffices s mem.now }
    requires index_lt_most_transactions { index < most_transactions }
    ensures { result ≡ pending_at (view_of s mem.now) index }
{
    Pending {
        number: Transaction(read(mem, s, Region::Opens, index)),
        changes: read(mem, s, Region::Changes, index),
        keeper: read_later(mem, s, Region::OpenKeeper, s.later.opens, index),
    }
}

// A record into an entry of Opens.
pub fn put_pending(mem: &mut [u8], s: Sizes, index: usize, p: Pending)
    requires suffices { Suffices s mem.old }
    requires index_lt_most_transactions { index < most_transactions }
    ensures { view_of s mem.new ≡ pending_put index p (view_of s mem.old) }
{
    write(mem, s, Region::Opens, index, p.number.0);
    write(mem, s, Region::Changes, index, p.changes);
    write_later(mem, s, Region::OpenKeeper, s.later.opens, index, p.keeper);
}
