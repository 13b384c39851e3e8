ghost use Rattle.splitting.specs.Figures.{Excluded, Figures};

// Carries the worked figures of the two rules, and what the law excludes, in its contract.
pub fn worked_figures()
    ensures figures { Figures }
    ensures excluded { Excluded }
{}
