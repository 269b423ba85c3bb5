// Small sheets with the verdicts that the rules give, shown from the definitions.
#![tactic(auto)]

ghost use Rattle.std.specs.Prelude.{◌≡◌};
ghost use Rattle.bench.specs.Bench.{BenchStands};

// How many sheets there are.
pub fn sheets_stand() -> usize
    ensures counted { result ≡ 9 }
    ensures stand { BenchStands }
{
    9
}
