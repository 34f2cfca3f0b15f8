// The stagger patterns among the panels at the edges of paper 01, as a contract: the crate is not proved without them.
ghost use Rattle.std.specs.Prelude.{T};
ghost use Rattle.tween.specs.Cases.{all_hold, table};

pub fn cases_hold()
    ensures { T (all_hold table) }
{}
