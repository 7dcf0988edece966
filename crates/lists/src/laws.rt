// What holds of list elements of every kind.
ghost use Rattle.elements.specs.Codec.{BodyLaws};
ghost use Rattle.lists.specs.Entries.{Kind};
ghost use Rattle.lists.specs.Lists.{entry_list};
ghost use Rattle.lists.specs.CellLists.{cell_list};

// For every kind of entry, a list that is read spells out to what stood there, and a list that is spelt is read.
pub fn lists_round_trip()
    ensures { (((k : Kind) → BodyLaws (entry_list k))) × (BodyLaws cell_list) }
{}
