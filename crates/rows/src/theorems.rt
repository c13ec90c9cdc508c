// What rows keep, as contracts: each function does nothing, and its contract is a theorem.
ghost use Rattle.rows.specs.Theorems.{InsertionKeepsOrder, InsertionAddsOneEqual, LastEqualIsWherePlaced, FirstFoundIsEqual, LastFoundIsEqual, RemovalTakesOneEqual, RemovalOfFirstLeavesTheOthers, CuttingKeepsOrder, SheddingKeepsOrder, RemovalKeepsOrder, LeastComesFirst};

use crate::order::TotalOrder;

// Inserting a record keeps a sorted row sorted.
pub fn insertion_keeps_order<T: TotalOrder>()
    ensures { InsertionKeepsOrder T.earlier }
{}

// Inserting a record makes one more of its equals, and no more of any other.
pub fn insertion_adds_one_equal<T: TotalOrder>()
    ensures { InsertionAddsOneEqual T.earlier }
{}

// In a sorted row the last equal of an inserted record is that record, where it was placed.
pub fn last_equal_is_where_placed<T: TotalOrder>()
    ensures { LastEqualIsWherePlaced T.earlier }
{}

// A place that a search for an equal record finds holds one; none is found only where the row has none.
pub fn found_place_holds_an_equal<T: TotalOrder>()
    ensures first { FirstFoundIsEqual T.earlier }
    ensures last { LastFoundIsEqual T.earlier }
{}

// Removing at a place that was found makes one less of that record's equals, and no less of any other;
// at the first place it leaves all but the first equal.
pub fn removal_takes_one_equal<T: TotalOrder>()
    ensures counts { RemovalTakesOneEqual T.earlier }
    ensures first { RemovalOfFirstLeavesTheOthers T.earlier }
{}

// What is left of a sorted row by cutting, shedding and removing is sorted.
pub fn shortening_keeps_order<T: TotalOrder>()
    ensures cutting { CuttingKeepsOrder T.earlier }
    ensures shedding { SheddingKeepsOrder T.earlier }
    ensures removal { RemovalKeepsOrder T.earlier }
{}

// The least record stands in the row, none comes before it, and only an empty row has none.
pub fn least_comes_first<T: TotalOrder>()
    ensures { LeastComesFirst T.earlier }
{}
