//! Laws of sums: over lists, over partitions, and over the routes of a legal plan. A legal plan has each activity once,
//! so its sum of any number for each activity, as of the duals, is the sum over the book.

ghost use Rattle.tail_book.specs.inside.Sums.{TotalOfTwoLists, TotalByNumber, TotalOfPartition, LengthOfPartition};
ghost use Rattle.tail_book.specs.inside.Partition.{LegalPlansPartition, LegalPlansFlyTheBook, LegalPlansFlyAll, TotalOfRoutes, TotalOfLegalPlan};

/// The sum of two lists together is that of both.
pub fn total_of_two_lists()
    ensures { TotalOfTwoLists }
{}

/// The sum of a list is that of its elements by number.
pub fn total_by_number()
    ensures { TotalByNumber }
{}

/// The sum over a partition of the numbers below n is the sum below n.
pub fn total_of_partition()
    ensures { TotalOfPartition }
{}

/// A partition of the numbers below n has n elements.
pub fn length_of_partition()
    ensures { LengthOfPartition }
{}

/// The activities of a legal plan's routes are those of the book, each once.
pub fn legal_plans_partition()
    ensures { LegalPlansPartition }
{}

/// Each activity of each route of a legal plan is of the book.
pub fn legal_plans_fly_the_book()
    ensures { LegalPlansFlyTheBook }
{}

/// The routes of a legal plan have as many activities as the book.
pub fn legal_plans_fly_all()
    ensures { LegalPlansFlyAll }
{}

/// A sum over routes, route by route, is the sum over their activities.
pub fn total_of_routes()
    ensures { TotalOfRoutes }
{}

/// A sum over the routes of a legal plan, route by route, is the sum over the book.
pub fn total_of_legal_plan()
    ensures { TotalOfLegalPlan }
{}
