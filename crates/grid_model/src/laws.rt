//! What sound parts make.
ghost use Rattle.grid_model.specs.Laws.{NetworkIsSound, ProblemIsSound, StartingNetwork};

/// Sound parts make a sound network.
pub fn network_is_sound()
    ensures { NetworkIsSound }
{}

/// Sound parts pose a sound problem, whatever reports of darkness there are.
pub fn problem_is_sound()
    ensures { ProblemIsSound }
{}

/// In other starting states the network is the one where the devices with these flags are closed.
pub fn starting_network()
    ensures { StartingNetwork }
{}
