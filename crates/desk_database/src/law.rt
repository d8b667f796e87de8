ghost use Rattle.desk_database.specs.Rows.{IsOfOneList};

/// A table is that of one list of entries.
pub fn table_is_of_one_list()
    ensures { IsOfOneList }
{}
