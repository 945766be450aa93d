//! A law of the faults of calls.
ghost use Rattle.al_check_calls.specs.Laws.{CallFaultsLie};

/// Each fault of a file's calls lies in the file if the tree does. Does nothing at run time.
pub fn faults_lie()
    ensures { CallFaultsLie }
{}
