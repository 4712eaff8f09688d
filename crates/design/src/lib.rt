// The theorems of orthogonal arrays, each asked for by a contract.
#![tactic(auto)]

ghost use Rattle.design.specs.Claims.{SumLaws, Exchange, Fibre, Effect, Coverage};
ghost use Rattle.design.specs.Models.{DesignsExist};

pub fn sums_stand()
    ensures { SumLaws }
{}

pub fn exchange_stands()
    ensures { Exchange }
{}

pub fn coverage_stands()
    ensures { Coverage }
{}

pub fn fibre_stands()
    ensures { Fibre }
{}

pub fn effect_stands()
    ensures { Effect }
{}

// That there are designs, so that the theorems speak of something.
pub fn designs_exist()
    ensures { DesignsExist }
{}
