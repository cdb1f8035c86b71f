// The calls over a lent list, each as a law of every core: a function over the table of a list, whatever it takes besides. A core that promises at the table what its call
// is to promise at the list makes a function that promises it. `served` is of a call that leaves the list, `listed` of one that writes into a slice besides, `moved` of one that
// writes into a second memory, `changed` of one that has an entry of the list changed as its core says; the first and the last are there once more for a memory that is read alone.
ghost use Rattle.std.specs.Prelude.{◌≡◌, ℕ, List, Result};
ghost use Rattle.std.proofs.Common.{Bor, MutBor};
ghost use Rattle.history.specs.History.{Call, given};
ghost use Rattle.promise.specs.Promise.{Serves, ServesBy, kept, Gives, GivesBy, Moves, MovesBy};
ghost use Rattle.scans.specs.Table.{table_of};
ghost use Rattle.scans.specs.declared.Scans.{Scans};
ghost use Rattle.terms.specs.Answers.{Answer};
ghost use Rattle.terms.specs.declared.Refusal.{Refusal};
ghost use Rattle.upkeep.specs.Lists.{answer_in, changed_at};
ghost use Rattle.upkeep.specs.declared.ListChange.{ListChange};

use lent::{apply_change, table};
use scans::Scans;
use terms::{Answer, Refusal, ScanEntry};
use upkeep::ListChange;

pub fn served<F: FnOnce(&mut [u8], Scans) -> Answer>(
    mem: &mut [u8],
    scans: &[ScanEntry],
    core: F,
) -> Answer
    requires { F.IsAlwaysCallable core }
    ensures runs { (m : MutBor (List ℕ)) × (m' : MutBor (List ℕ)) × (t : Scans) × (m.now ≡ mem.old) × (m'.now ≡ mem.new) × (t ≡ table_of scans.now) × F.post core m t result m' }
    ensures promised { (c : Call) → ((m m' : MutBor (List ℕ)) (t : Scans) (a : Answer) → F.post core m t a m' → ServesBy t m.now c a m'.now kept) → Serves mem.old scans.now c result mem.new scans.now }
{
    core(mem, table(scans))
}

pub fn served_reading<F: FnOnce(&[u8], Scans) -> Answer>(
    mem: &[u8],
    scans: &[ScanEntry],
    core: F,
) -> Answer
    requires { F.IsAlwaysCallable core }
    ensures runs { (m : Bor (List ℕ)) × (t : Scans) × (m.now ≡ mem.now) × (t ≡ table_of scans.now) × F.post core m t result }
    ensures promised { (c : Call) → ((m : Bor (List ℕ)) (t : Scans) (a : Answer) → F.post core m t a → ServesBy t m.now c a m.now kept) → Serves mem.now scans.now c result mem.now scans.now }
{
    core(mem, table(scans))
}

// The call may be named by what the slice holds.
pub fn listed<F: FnOnce(&[u8], Scans, &mut [u32]) -> Answer>(
    mem: &[u8],
    scans: &[ScanEntry],
    stamps: &mut [u32],
    core: F,
) -> Answer
    requires { F.IsAlwaysCallable core }
    ensures runs { (m : Bor (List ℕ)) × (t : Scans) × (s : MutBor (List ℕ)) × (s' : MutBor (List ℕ)) × (m.now ≡ mem.now) × (s.now ≡ stamps.old) × (s'.now ≡ stamps.new) × (t ≡ table_of scans.now) × F.post core m t s result s' }
    ensures promised { (c : List ℕ → Call) → ((m : Bor (List ℕ)) (t : Scans) (s s' : MutBor (List ℕ)) (a : Answer) → F.post core m t s a s' → GivesBy t m.now (c s.now) (given a s'.now) m.now kept) → Gives mem.now scans.now (c stamps.old) (given result stamps.new) mem.now scans.now }
{
    core(mem, table(scans), stamps)
}

// The call may be named by what the second memory holds.
pub fn moved<F: FnOnce(&[u8], Scans, &mut [u8]) -> Answer>(
    mem: &[u8],
    scans: &[ScanEntry],
    second: &mut [u8],
    core: F,
) -> Answer
    requires { F.IsAlwaysCallable core }
    ensures runs { (m : Bor (List ℕ)) × (t : Scans) × (s : MutBor (List ℕ)) × (s' : MutBor (List ℕ)) × (m.now ≡ mem.now) × (s.now ≡ second.old) × (s'.now ≡ second.new) × (t ≡ table_of scans.now) × F.post core m t s result s' }
    ensures promised { (c : List ℕ → Call) → ((m : Bor (List ℕ)) (t : Scans) (s s' : MutBor (List ℕ)) (a : Answer) → F.post core m t s a s' → MovesBy t m.now (c s.now) a s'.now) → Moves mem.now scans.now (c second.old) result second.new }
{
    core(mem, table(scans), second)
}

pub fn changed<F: FnOnce(&mut [u8], Scans) -> Result<ListChange, Refusal>>(
    mem: &mut [u8],
    scans: &mut [ScanEntry],
    core: F,
) -> Answer
    requires { F.IsAlwaysCallable core }
    ensures runs { (m : MutBor (List ℕ)) × (m' : MutBor (List ℕ)) × (t : Scans) × (d : Result ListChange Refusal) × (m.now ≡ mem.old) × (m'.now ≡ mem.new) × (t ≡ table_of scans.old) × (result ≡ answer_in d) × (scans.new ≡ changed_at d scans.old) × F.post core m t d m' }
    ensures promised { (c : Call) → ((m m' : MutBor (List ℕ)) (t : Scans) (d : Result ListChange Refusal) → F.post core m t d m' → ServesBy t m.now c (answer_in d) m'.now (changed_at d)) → Serves mem.old scans.old c result mem.new scans.new }
{
    let change = core(mem, table(scans));
    apply_change(scans, change)
}

pub fn changed_reading<F: FnOnce(&[u8], Scans) -> Result<ListChange, Refusal>>(
    mem: &[u8],
    scans: &mut [ScanEntry],
    core: F,
) -> Answer
    requires { F.IsAlwaysCallable core }
    ensures runs { (m : Bor (List ℕ)) × (t : Scans) × (d : Result ListChange Refusal) × (m.now ≡ mem.now) × (t ≡ table_of scans.old) × (result ≡ answer_in d) × (scans.new ≡ changed_at d scans.old) × F.post core m t d }
    ensures promised { (c : Call) → ((m : Bor (List ℕ)) (t : Scans) (d : Result ListChange Refusal) → F.post core m t d → ServesBy t m.now c (answer_in d) m.now (changed_at d)) → Serves mem.now scans.old c result mem.now scans.new }
{
    let change = core(mem, table(scans));
    apply_change(scans, change)
}
