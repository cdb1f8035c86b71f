// The lent list of open scans, a slice of small records: `table` finds the open scans, `apply_change` adds or drops one, `free_all` and `free_made` drop all.
#![tactic(auto)]

ghost use Rattle.std.specs.Prelude.{◌≡◌};
ghost use Rattle.scans.specs.Entries.{all_freed, freed_if};
ghost use Rattle.scans.specs.Table.{table_of};
ghost use Rattle.terms.specs.Refusals.{is_accepted};
ghost use Rattle.upkeep.specs.Lists.{answer_in, changed_at};

use model::free_entry;
use scans::{Scans, table_from};
use terms::{Answer, Refusal, ScanEntry};
use upkeep::ListChange;

// The table of the list, of any length.
pub fn table(list: &[ScanEntry]) -> Scans
    ensures { result ≡ table_of list.now }
{
    table_from(list.len(), |i| list[i])
}

// The entry that a change names becomes what it says: a scan is added or dropped. An entry past the end is not there, and nothing is stored. Gives the call's answer.
pub fn apply_change(list: &mut [ScanEntry], change: Result<ListChange, Refusal>) -> Answer
    ensures { (result ≡ answer_in change) × (list.new ≡ changed_at change list.old) }
{
    let change = change?;
    if change.index < list.len() {
        list[change.index] = change.entry;
    }
    change.answer
}

// Every entry becomes free, however many there are.
pub fn free_all(list: &mut [ScanEntry])
    ensures { list.new ≡ all_freed list.old }
{
    list.fill(free_entry());
}

// The list of a store that was to be made: every entry becomes free, unless the making was refused. Gives the making's answer back.
pub fn free_made(list: &mut [ScanEntry], answer: Answer) -> Answer
    ensures { (result ≡ answer) × (list.new ≡ freed_if (is_accepted answer) list.old) }
{
    if answer.is_ok() {
        free_all(list);
    }
    answer
}
