ghost use Rattle.reading.specs.Laws.{ReadIsSpelled, SpelledIsRead, TokensHaveOneTree};

/// What is read is spelled so: a tree of the outline that is read is well formed and keeps to the limit, and all of the
/// tokens spell it.
pub fn read_is_spelled()
    ensures { ReadIsSpelled }
{}

/// What a well formed tree spells is read so, where the tree keeps to the limit, and refused for nesting where it
/// doesn't.
pub fn spelled_is_read()
    ensures { SpelledIsRead }
{}

/// No list of tokens is spelled by two trees, however deep: well formed trees with one spelling have the same notation,
/// in which each form stands in brackets of its own.
pub fn tokens_have_one_tree()
    ensures { TokensHaveOneTree }
{}
