ghost use Rattle.pm_world.specs.InWorld.{SeenAgrees, SeenIsSound};

/// A law: what a lane finds in a word, where its view is one of a world, agrees with what it knows
/// of its generation, its seal and the classes of runs; and the blocks that it found are as it knows
/// them, before the look and after it, whatever other lanes do. No code runs.
pub fn lanes_see_their_world()
    ensures agrees { SeenAgrees }
    ensures sound { SeenIsSound }
{}
