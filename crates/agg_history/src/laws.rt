// Laws of the definitions. Nothing runs here.
ghost use Rattle.agg_history.specs.Laws.{PrunedStandsForRows, LaidOverIsNew, LaidOverReads};
ghost use Rattle.agg_history.specs.Laws.{PutIsFound, NoneIsPut, RightPutsStayRight};

/// What is kept of rows stands for these rows.
pub fn pruned_stands_for_rows()
    ensures { PrunedStandsForRows }
{}

/// Rows with puts laid over them read as what was put, else as before, and puts that lead to new
/// rows make them.
pub fn puts_lead_on()
    ensures new { LaidOverIsNew }
    ensures reads { LaidOverReads }
    ensures found { PutIsFound }
    ensures none { NoneIsPut }
    ensures right { RightPutsStayRight }
{}
