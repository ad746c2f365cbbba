// Programs that compare answers with those that stand in files.
#![tactic(auto)]

ghost use Rattle.std.specs.Prelude.{◌≡◌, Some};
ghost use Rattle.cases.specs.Tallies.{tallied, tally_text};

use std::{fmt, fs};

// How many answers agree and how many differ; each count stops at 2^32 - 1.
#[derive(Clone, Copy, PartialEq, Eq, Debug, Default)]
pub struct Tally {
    pub agree: u32,
    pub differ: u32,
}

impl Tally {
    // One more answer.
    pub fn count(&mut self, agrees: bool)
        ensures { self.new ≡ tallied agrees self.old }
    {
        if agrees {
            self.agree = self.agree.saturating_add(1);
        } else {
            self.differ = self.differ.saturating_add(1);
        }
    }
}

impl fmt::Display for Tally {
    ghost output = { λ t. Some (tally_text t) };

    fn fmt<W: fmt::Write>(&self, f: &mut fmt::Formatter<W>) -> fmt::Result {
        write!(f, "{} agree, {} differ", self.agree, self.differ)
    }
}

// Asks of each name that the file `names` lists, one a line, whether its answer agrees, and prints those that differ and the counts.
pub fn compare<F: Fn(&str) -> anyhow::Result<bool>>(
    rt: &HostRuntime,
    agrees: F,
) -> anyhow::Result<()>
    requires { F.IsAlwaysCallable agrees }
{
    let names = fs::read_to_string(rt, "names")?;
    let mut tally = Tally::default();
    for name in names.lines() {
        let same = agrees(name)?;
        if !same {
            println!(rt; "{name} differs")?;
        }
        tally.count(same);
    }
    println!(rt; "{tally}")?;
    Ok(())
}
