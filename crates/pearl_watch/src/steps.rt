// The marks of an entry, one by one.

ghost use Rattle.std.specs.Prelude.{◌≡◌, ℕ, [], ◌∷◌, Option, is_none};
ghost use Rattle.pearl_rules.specs.Runs.{next_mark};
ghost use Rattle.pearl_watch.specs.Marks.{Gives};

use pearl_rules::entry::Entry;
use std::marker::Model;

/// What is left of a journal's entry, which is given as entries of one mark each.
#[derive(Drop)]
pub struct Steps {
    // picks that are left before the rest
    picks: Option<u64>,
    rest: Option<Entry>,
}

impl Model for Steps {
    ghost use Rattle.std.specs.Prelude.{List};
    ghost use Rattle.pearl_rules.specs.declared.entry.Entry.{Entry};
    ghost use Rattle.pearl_watch.specs.Marks.{picks_before};

    ghost Value = { List Entry };

    ghost view = { λ s. picks_before s.picks s.rest };
}

impl Steps {
    /// The whole entry is left.
    pub fn new(entry: Entry) -> Steps
        ensures { result ≡ entry ∷ [] }
    {
        Steps {
            picks: None,
            rest: Some(entry),
        }
    }

    /// The entry that makes the next mark alone, whichever task is picked; there is no task where the run is idle.
    pub fn next(&mut self, idle: bool) -> Option<Entry>
        ensures { (picked : Option ℕ) → is_none picked ≡ idle → Gives (next_mark picked self.old) result self.old self.new }
    {
        if let Some(picks) = &mut self.picks
            && *picks > 0
            && !idle
        {
            *picks -= 1;
            return Some(Entry::Run(1));
        }
        let rest = self.rest.as_mut()?;
        match rest {
            Entry::Run(left) => {
                if idle || *left == 0 {
                    return None;
                }
                *left -= 1;
                self.picks = None;
                Some(Entry::Run(1))
            }
            Entry::Tick(left) => {
                if *left == 0 {
                    return None;
                }
                *left -= 1;
                self.picks = None;
                Some(Entry::Tick(1))
            }
            Entry::Pass { times, picks } => {
                if *times == 0 {
                    return None;
                }
                *times -= 1;
                self.picks = Some(*picks);
                Some(Entry::Tick(1))
            }
            _ => {
                self.picks = None;
                self.rest.take()
            }
        }
    }
}
