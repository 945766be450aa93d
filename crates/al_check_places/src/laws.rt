//! A law on the places of any file.
ghost use Rattle.al_check_places.specs.Laws.{PlacesHaveTexts, PlacesLie};

/// The scalars of a file's places are scalars of its tree: they lie in the file if the tree does,
/// and their texts are UTF-8 if those of the tree are. Does nothing at run time.
pub fn placed_scalars()
    ensures lie { PlacesLie }
    ensures texts { PlacesHaveTexts }
{}
