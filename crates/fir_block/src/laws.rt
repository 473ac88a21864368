//! What the blocks of a filter have in common. Each law is a function that does nothing.
ghost use Rattle.fir_block.specs.Laws.{AreSoundBlocks, BlocksAreCounted, NamesDiffer};

/// A filter and its subsystem are as many blocks as its extent.
pub fn blocks_are_counted()
    ensures { BlocksAreCounted }
{}

/// The blocks of a filter are such as their text in a model could be.
pub fn are_sound_blocks()
    ensures { AreSoundBlocks }
{}

/// No two blocks of a filter have one name.
pub fn names_differ()
    ensures { NamesDiffer }
{}
