//! What the checker says of a certificate: its claim, or the line that failed first and why. A no is of the text: what
//! the claim says may be true all the same.

ghost use Rattle.std.specs.Prelude.{◌≡◌, ◌==◌, find, option_map};
ghost use Rattle.cert_checker.specs.Reasons.{name_of_reason, number_of_reason, reason_name};

use tail_book::Claim;

/// Why a certificate is not accepted.
#[derive(Clone, Copy)]
pub enum Reason {
    /// The line is none of a certificate's.
    BadLine,
    /// The line has no place here, or names what the book does not have.
    OutOfPlace,
    /// The fact of the step is in the marks.
    KnownFact,
    /// The fact of the step does not follow from the marks.
    NotFollowing,
    /// The pair of the split is decided, the activity of the label is not alive, or somebody is alive at the hole.
    NotAlive,
    /// The cover or the stuck leaf before this line is not shown.
    OpenCover,
    /// The dual is outside the box.
    OutOfBox,
    /// Plan and claim do not belong together, or the plan is not legal, or does not cost what is claimed.
    BadPlan,
    /// A leaf bounds by less than is claimed.
    WeakBound,
    /// A tree is not whole, or the text ends too soon.
    Unfinished,
}

/// What the checker says of a certificate: the claim that it shows, or its first failure.
#[derive(Clone, Copy, PartialEq, Eq, Debug)]
pub enum Verdict {
    /// The certificate is accepted, and this is its claim.
    Yes(Claim),
    /// The number of the line that failed, counted from 1, and the number of the reason.
    No { line: u64, reason: u8 },
}

/// Every reason, in the order of their numbers.
const REASONS: [Reason; 10] = [
    Reason::BadLine,
    Reason::OutOfPlace,
    Reason::KnownFact,
    Reason::NotFollowing,
    Reason::NotAlive,
    Reason::OpenCover,
    Reason::OutOfBox,
    Reason::BadPlan,
    Reason::WeakBound,
    Reason::Unfinished,
];

impl Reason {
    /// The number that a verdict tells.
    pub fn number(self) -> u8
        ensures { result ≡ number_of_reason self }
    {
        match self {
            Reason::BadLine => 1,
            Reason::OutOfPlace => 2,
            Reason::KnownFact => 3,
            Reason::NotFollowing => 4,
            Reason::NotAlive => 5,
            Reason::OpenCover => 6,
            Reason::OutOfBox => 7,
            Reason::BadPlan => 8,
            Reason::WeakBound => 9,
            Reason::Unfinished => 10,
        }
    }

    /// The name that is printed.
    pub fn name(self) -> &'static [u8]
        ensures { result.now ≡ name_of_reason self }
    {
        match self {
            Reason::BadLine => b"BadLine",
            Reason::OutOfPlace => b"OutOfPlace",
            Reason::KnownFact => b"KnownFact",
            Reason::NotFollowing => b"NotFollowing",
            Reason::NotAlive => b"NotAlive",
            Reason::OpenCover => b"OpenCover",
            Reason::OutOfBox => b"OutOfBox",
            Reason::BadPlan => b"BadPlan",
            Reason::WeakBound => b"WeakBound",
            Reason::Unfinished => b"Unfinished",
        }
    }
}

// The reason among some that has this number.
fn reason_among(reasons: &[Reason], number: u8) -> Option<&Reason>
    ensures { option_map (λ reason. reason.now) result ≡ find (λ reason. number_of_reason reason == number) reasons.now }
{
    reasons.iter().find(|reason| reason.number() == number)
}

/// The name of the reason that has this number, or nothing where none has.
pub fn reason_name(number: u8) -> &'static [u8]
    ensures { result.now ≡ reason_name number }
{
    match reason_among(&REASONS, number) {
        Some(reason) => reason.name(),
        None => b"",
    }
}
