//! Where the options of a command line may stand.
ghost use Rattle.fx_words.specs.Line.{OptionsInAnyOrder};

/// Options may stand in any order, before, between or after the mode and the graph, and order the same.
pub fn options_in_any_order()
    ensures { OptionsInAnyOrder }
{}
