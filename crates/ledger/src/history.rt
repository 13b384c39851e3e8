ghost use Rattle.ledger.specs.Law.{EveryListHasAHistory};

// Carries in its contract that every list of calls has a history, so that the law is not empty.
pub fn every_list_has_a_history()
    ensures { EveryListHasAHistory }
{}
