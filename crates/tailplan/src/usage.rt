//! The lines that are printed where the words are refused: the words of a run over tables, and where they ask for a repair, why no
//! plan is legal, or quotas, the words of that. Those of a trial are not among them, and no line says which words were wrong.

ghost use Rattle.std.specs.Prelude.{◌≡◌};
ghost use Rattle.tailplan.specs.Usage.{quota_usage_line, repair_usage_line, usage_line, why_usage_line};

/// The words that the program takes, as one line.
pub fn usage_line() -> &'static [u8]
    ensures { result.now ≡ usage_line }
{
    b"usage: tailplan TIMETABLE FLEET RULES [--nodes N] [--cert FILE [--lean]] [--best]\n"
}

/// The words of a repair, as one line.
pub fn repair_usage_line() -> &'static [u8]
    ensures { result.now ≡ repair_usage_line }
{
    b"usage: tailplan repair TIMETABLE FLEET RULES PLAN\n"
}

/// The words that ask why no plan is legal, as one line.
pub fn why_usage_line() -> &'static [u8]
    ensures { result.now ≡ why_usage_line }
{
    b"usage: tailplan why TIMETABLE FLEET RULES\n"
}

/// The words of a run under quotas, as one line.
pub fn quota_usage_line() -> &'static [u8]
    ensures { result.now ≡ quota_usage_line }
{
    b"usage: tailplan quota TIMETABLE FLEET RULES QUOTAS\n"
}
