ghost use Rattle.trusted_execution.specs.FlagCase.{HaveTheirFlags, runs_of_one_region, runs_of_other_regions};

/// Both flags after some plays, as another program says them.
pub fn flags_are_computed()
    ensures one_region { HaveTheirFlags runs_of_one_region }
    ensures other_regions { HaveTheirFlags runs_of_other_regions }
{}
