//! The names of a plan that are dropped: those that nothing has, and those that were met before.

ghost use Rattle.std.specs.Prelude.{◌≡◌, ◌++◌, IfOk};
ghost use Rattle.plan_audit.specs.Rules.{unknown, twice};

use crate::broken::Broken;
use crate::met::Met;
use tail_book::Memory;

/// Adds the names that nothing has.
pub fn add_unknown(met: &[Met], list: &mut Vec<Broken>) -> Result<(), Memory>
    ensures { IfOk result (λ _. list.new.items ≡ list.old.items ++ unknown met.now) }
{
    for name in met {
        if let Met::Unknown(name) = *name {
            list.push(Broken::Unknown(name))?;
        }
    }
    Ok(())
}

/// Adds the names that were met before.
pub fn add_twice(met: &[Met], list: &mut Vec<Broken>) -> Result<(), Memory>
    ensures { IfOk result (λ _. list.new.items ≡ list.old.items ++ twice met.now) }
{
    for name in met {
        if let Met::Twice(name) = *name {
            list.push(Broken::Twice(name))?;
        }
    }
    Ok(())
}
