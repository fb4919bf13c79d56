ghost use Rattle.pm_view.specs.Steps.{Step};
ghost use Rattle.pm_world.specs.InWorld.{SizeFound, SizesSeen};
ghost use Rattle.pm_world.specs.Sizes.{KeepsSizes, RunsKeepSizes};

/// A law: every lawful step, and every run of them, keeps that in the settled words each allocated
/// block has room for an object of the size that its header says, and so has each block that a call
/// in flight allocates. So the size that a lane finds of an object that it found fits the object's
/// block, and so does what it knows of it, before a look and after it. No code runs.
pub fn objects_fit_their_blocks()
    ensures keeps { (step : Step) → KeepsSizes step }
    ensures runs { RunsKeepSizes }
    ensures found { SizeFound }
    ensures seen { SizesSeen }
{}
