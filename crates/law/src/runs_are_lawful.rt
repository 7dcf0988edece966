// The law of runs: the centre's book, the table and the site's counts agree after every run of calls.
ghost use Rattle.law.specs.Law.{Law};

use site::Site;

// Over any site, after any list of calls.
pub fn runs_are_lawful<S: Site>()
    ensures { Law S.Site.model S.Site.steps }
{}
