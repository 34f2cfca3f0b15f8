// What holds of whole lists of calls on a timeline: claims about the definitions that the calls' contracts cite. There is nothing to run.
#![tactic(auto)]

ghost use Rattle.history.specs.Invariant.{Kept};
ghost use Rattle.history.specs.Claim.{Claim, PlacesAgree};
ghost use Rattle.history.specs.Lent.{LentCalls};
ghost use Rattle.history.specs.Covered.{Coverage};

// Every call keeps the invariant.
pub fn invariant_kept()
    ensures { Kept }
{}

// After any list of calls, an accepted seek shows what a newly built timeline shows.
pub fn claimed()
    ensures { Claim }
{}

// Where one timeline notes its place and another seeks to it, both show the same.
pub fn places_agree()
    ensures { PlacesAgree }
{}

// The calls on a lent clock are the timeline's own.
pub fn lent_calls()
    ensures { LentCalls }
{}

// What lists of calls make is covered, and so is what calls on it, on its track, on its lent clock or in columns leave.
pub fn calls_covered()
    ensures { Coverage }
{}
