//! Worked examples: the rows of small offices, and the causes in them.

ghost use Rattle.state_encoding.specs.WorkedCatalogueCauses as causes;
ghost use Rattle.state_encoding.specs.WorkedCells as cell_causes;
ghost use Rattle.state_encoding.specs.WorkedDeskCauses as desk_causes;
ghost use Rattle.state_encoding.specs.WorkedReading as tables;

/// For instance, the rows of a small office describe the state that they represent, in both versions.
pub fn worked_tables()
    ensures { tables.ReadAgain }
{}

/// Each of the causes 1 to 5 is found in a small office after a few of its rows are changed, and none of them before.
pub fn worked_catalogue_causes()
    ensures { causes.CatalogueCausesTold }
{}

/// Each of the causes 6 to 10 is found in a small office after a few of its rows are changed, and none of them before.
pub fn worked_desk_causes()
    ensures { desk_causes.DeskCausesTold }
{}

/// For instance, a row with a cell that its column cannot have cannot be read, so the cause of its table holds.
pub fn worked_cell_causes()
    ensures { cell_causes.CellCausesTold }
{}
