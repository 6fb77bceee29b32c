ghost use Rattle.log_text.specs.Laws.{SavedLinesFit};

/// What is given out at once is no longer than a line may be.
pub fn saved_lines_fit()
    ensures { SavedLinesFit }
{}
