//! The two versions of certificates, and the number by which a header tells each.

ghost use Rattle.std.specs.Prelude.{◌≡◌};
ghost use Rattle.cert_lines.specs.Grammar.{IsVersion};
ghost use Rattle.cert_lines.specs.Version.{number_of_version};

/// How the leaves of a certificate show their bounds.
#[derive(Clone, Copy, PartialEq, Eq, Debug)]
pub enum Version {
    /// Each bound has a cover of every aircraft, with its labels: nothing has to be priced again.
    Full,
    /// A bound may have its duals alone: the text is short, and whoever judges it prices each leaf.
    Lean,
}

impl Version {
    /// The number in the header: 1 or 2.
    pub fn number(self) -> u8
        ensures number { result ≡ number_of_version self }
        ensures version { IsVersion result }
    {
        match self {
            Version::Full => 1,
            Version::Lean => 2,
        }
    }
}
