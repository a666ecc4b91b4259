//! The laws of the frames' spellings.
ghost use Rattle.ivy_wire.specs.Grammar.{HasOneSpelling, SpellsAtMostOne, NoneBeginsAnother};

/// It does nothing. Its contract says that frames that follow one another in a stream can be
/// told apart without any mark between them: each frame that fits has one spelling, a string
/// spells at most one frame, and no spelling begins another.
pub fn grammar_is_prefix_free()
    ensures spelling { HasOneSpelling }
    ensures frame { SpellsAtMostOne }
    ensures prefix { NoneBeginsAnother }
{}
