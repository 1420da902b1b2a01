ghost use Rattle.teco_model.specs.rows.Elements.{ElementRows};
ghost use Rattle.teco_model.specs.rows.Files.{FileRows};
ghost use Rattle.teco_model.specs.rows.Pages.{PageRows};
ghost use Rattle.teco_model.specs.rows.Sessions.{WorkedRows};
ghost use Rattle.teco_model.specs.rows.Skips.{SkipRows};

/// The definition gives what sessions worked by hand give.
pub fn worked_rows()
    ensures { WorkedRows }
{}

/// The definition reads the letters of each element as the table of elements says.
pub fn element_rows()
    ensures { ElementRows }
{}

/// The definition gives what skips worked by hand give.
pub fn skip_rows()
    ensures { SkipRows }
{}

/// The rules of pages and files give what commands worked by hand give.
pub fn file_rows()
    ensures { FileRows }
{}

/// The definition of a step gives what command strings of pages and files worked by hand give.
pub fn page_rows()
    ensures { PageRows }
{}
