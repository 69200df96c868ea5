//! How often routes fly an activity. Nobody asks how often beyond once, so three cases are enough, and no count can grow
//! out of range.

ghost use Rattle.std.specs.Prelude.{◌≡◌};
ghost use Rattle.tail_book.specs.inside.Flown.{flown_one_more};

/// How often routes fly an activity: not at all, once, or more often.
#[derive(Clone, Copy, PartialEq, Eq, Debug)]
pub enum Flown {
    /// In no route.
    Never,
    /// Once in all.
    Once,
    /// More often than once.
    More,
}

impl Flown {
    /// The same with one time more, as one counts along routes.
    pub fn one_more(self) -> Flown
        ensures { result ≡ flown_one_more self }
    {
        match self {
            Flown::Never => Flown::Once,
            Flown::Once => Flown::More,
            Flown::More => Flown::More,
        }
    }
}
