//! Laws of a route with one activity more at its end. The definitions go from the front and a search adds at the end,
//! so it takes from here what one step changes.

ghost use Rattle.tail_book.specs.inside.OneMore.{LegalWithOneMore, CountersWithOneMore, PlaceWithOneMore, CostWithOneMore, CostWithOneMoreIn, RisingWithOneMore};

/// Legality asks of a route with one activity more that it goes on with it.
pub fn legal_with_one_more()
    ensures { LegalWithOneMore }
{}

/// Its counters take one step more.
pub fn counters_with_one_more()
    ensures { CountersWithOneMore }
{}

/// It ends after that activity.
pub fn place_with_one_more()
    ensures { PlaceWithOneMore }
{}

/// It costs that activity and its connection more.
pub fn cost_with_one_more()
    ensures { CostWithOneMore }
{}

/// By a table too it costs that activity and its connection more.
pub fn cost_with_one_more_in()
    ensures { CostWithOneMoreIn }
{}

/// It rises where the route does and the activity is of the book and beyond its end.
pub fn rising_with_one_more()
    ensures { RisingWithOneMore }
{}
