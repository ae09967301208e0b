ghost use Rattle.std.specs.Prelude.{◌≡◌};
ghost use Rattle.engine.specs.Views.{rows_of};
ghost use Rattle.engine.specs.Starts.{started_rows};
ghost use Rattle.rules.specs.Rows.{first_in_rank, waits};

use crate::table::Table;

impl Table {
    /// What a slot does to the table: the waiting round that ranks first starts, if it may, and its query's number is
    /// answered; where none waits, the queries that are leaving go.
    pub(crate) fn start_any(&mut self, may: bool) -> Option<u32>
        ensures { (result, rows_of self.new) ≡ started_rows (first_in_rank waits (rows_of self.old)) may (rows_of self.old) }
    {
        if self.is_quiet() {
            self.sweep();
            None
        } else if may {
            self.start_first()
        } else {
            None
        }
    }
}
