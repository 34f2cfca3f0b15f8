// What holds of whole logs: claims about the definitions that the contracts of crate call_log cite. There is nothing to run.
#![tactic(auto)]

ghost use Rattle.log_history.specs.Claim.{Claim};

// However the input is cut into pieces and the room into turns, the program prints the log of the whole input.
pub fn claimed()
    ensures { Claim }
{}
