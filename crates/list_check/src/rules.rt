// The rules of a gate list. `check_rules` tests how long it is; what it calls behind that asks for it, and what passes is `Lawful`.
ghost use Rattle.std.specs.Prelude.{◌≡◌, ◌≤◌, true, [], length, MatchResult};
ghost use Rattle.sheet.specs.Contents.{traffic_of};
ghost use Rattle.sending.specs.Rules.{total, entries_broken, first_broken};
ghost use Rattle.sending.specs.InTime.{unbroken};
ghost use Rattle.list_check.specs.Faults.{outcome_of};

use crate::fault::CheckFault;
use crate::front::{Front, note};
use gates::entry::{Entry, MOST_ENTRIES};
use sheet::sheet::Sheet;

// The rule that an entry breaks first, entry by entry.
fn check_entries(sheet: &Sheet, list: &[Entry]) -> Result<(), CheckFault>
    requires { length list.now ≤ MOST_ENTRIES }
    ensures { result ≡ outcome_of (entries_broken (traffic_of sheet.now) [] list.now) }
{
    let mut latest = [0; 256];
    for (at, entry) in list.iter().enumerate() {
        Front::new(&list[..at], &latest).check(sheet, entry)?;
        note(&mut latest, entry);
    }
    Ok(())
}

// The time that a list takes.
fn total(list: &[Entry]) -> u64
    requires { length list.now ≤ MOST_ENTRIES }
    ensures { result ≡ total list.now }
{
    list.iter().map(|entry| entry.interval as u64).sum()
}

// The rule that a list breaks first: its size, then entry by entry its gates and names, then its time.
fn check_rules(sheet: &Sheet, list: &[Entry]) -> Result<(), CheckFault>
    ensures { result ≡ outcome_of (first_broken (traffic_of sheet.now) list.now) }
{
    if list.is_empty() || list.len() > MOST_ENTRIES {
        return Err(CheckFault::Size);
    }
    check_entries(sheet, list)?;
    if total(list) != sheet.cycle() {
        return Err(CheckFault::Total);
    }
    Ok(())
}

// A list that keeps the rules for a sheet. An acceptance has these fields, too, and by a rule of the project no invariant.
#[derive(Clone, Copy)]
pub(crate) struct Lawful<'a> {
    pub(crate) sheet: &'a Sheet,
    pub(crate) list: &'a [Entry],
    ghost lawful: { unbroken (first_broken (traffic_of sheet.now) list.now) ≡ true },
}

impl<'a> Lawful<'a> {
    // The list, or the rule that it breaks first.
    pub(crate) fn of(sheet: &'a Sheet, list: &'a [Entry]) -> Result<Lawful<'a>, CheckFault>
        ensures { MatchResult result (λ l. (l.sheet ≡ sheet.entry) × (l.list ≡ list.entry)) (λ fault. Err fault ≡ outcome_of (first_broken (traffic_of sheet.now) list.now)) }
    {
        check_rules(sheet, list)?;
        Ok(Lawful { sheet, list })
    }
}
