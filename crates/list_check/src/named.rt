// The packets that a list names, in queue order.
ghost use Rattle.std.specs.Prelude.{◌<◌, length};
ghost use Rattle.sheet.specs.Contents.{traffic_of};
ghost use Rattle.list_check.specs.Queued.{NamedJoins, Queued};

use crate::rules::Lawful;
use gates::entry::{Entry, MOST_ENTRIES};
use sheet::sheet::Sheet;
use table::owned::Table;
use traffic::packet::Job;

// The packet that an entry names joins, if it names one.
fn join(named: &mut Table<Job, MOST_ENTRIES>, sheet: &Sheet, entry: &Entry)
    requires { length named.old < MOST_ENTRIES }
    ensures { NamedJoins (traffic_of sheet.now) entry.now named.old named.new }
{
    if let Some(job) = sheet.job(entry.flow, entry.number as u64) {
        let _ = named.put(job);
    }
}

// All packets that the list names.
pub(crate) fn named(lawful: Lawful) -> Table<Job, MOST_ENTRIES>
    ensures { Queued (traffic_of lawful.entry.sheet.now) lawful.entry.list.now 0 result }
{
    let mut named = Table::new();
    for entry in lawful.list {
        join(&mut named, lawful.sheet, entry);
    }
    named
}
