// A law, the contract of a function that does nothing.
ghost use Rattle.run_outcomes.specs.Names.{PlansHaveApartNames};

/// No two files that a plan has written have one name.
pub fn plans_have_apart_names()
    ensures { PlansHaveApartNames }
{}
