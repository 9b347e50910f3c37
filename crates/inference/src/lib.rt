#![tactic(auto)]

// What version 2 of a table leaves out: the scopes and nestings of its blocks, inferred.
