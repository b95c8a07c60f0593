// Laws of runs that end and go on, over any engine. Each function's contract is one theorem; none does anything.

ghost use Rattle.pearl_run_laws.specs.Laws.{RunsGoOn, RunsEndOnce, MomentsCome, EntriesPart};

use pearl_rules::laws::time_passes;

/// A run over a journal's first entries that has ended goes on over the others as the run over the whole journal does:
/// each of its states is one of that run, down to the mark that comes next, but that what was told up to the end isn't
/// told again. Entries of which no mark came, as `run` where nobody can act, are left behind.
pub fn runs_go_on<S>()
    ensures { RunsGoOn S }
{}

/// A run has one last state, however many steps are counted beyond its end.
pub fn runs_end_once<S>()
    ensures { RunsEndOnce S }
{}

/// At the end of a run all the time in its entries has passed, and no more.
pub fn moments_come<S>()
    ensures { MomentsCome S }
{
    time_passes();
}

/// `run`, `tick` and `pass` can be parted after any of their marks, wherever they stand in a journal: then the run is
/// the same after any number of steps. So each mark can be the end of a journal's first part.
pub fn entries_part<S>()
    ensures { EntriesPart S }
{}
