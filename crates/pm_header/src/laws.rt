ghost use Rattle.std.specs.Prelude.{◌≡◌, ℕ, List};
ghost use Rattle.pm_header.specs.Faults.{IsFault};
ghost use Rattle.pm_header.specs.declared.fault.HeaderFault.{HeaderFault};

/// A page has one fault at most: a law over all pages. No code runs.
pub fn one_fault_per_page()
    ensures { (page : List ℕ) (fault other : HeaderFault) → IsFault page fault → IsFault page other → fault ≡ other }
{}
