// What came of a request over a list, told cell by cell.
#![tactic(auto)]

ghost use Rattle.outcomes.specs.Tells.{OutcomesTell};

// For every request, whatever the cells, the site, the messages and the list.
pub fn outcomes_tell()
    ensures { OutcomesTell }
{}
