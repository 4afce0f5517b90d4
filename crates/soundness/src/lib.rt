// A table that the check passes, as all that comes behind the check takes it; and laws: what the check's answer tells of a table's fault.
#![tactic(auto)]

ghost use Rattle.std.specs.Prelude.{◌≡◌, MatchResult};
ghost use Rattle.std.proofs.Math.Option.{some};
ghost use Rattle.answers.specs.Check.{check_fault};
ghost use Rattle.verdict.specs.Results.{number_and_record};

use layout::checked_table::CheckedTable;
use verdict::Fault;

// The table of these bytes, or what the check says of them.
pub fn checked(bytes: &[u8]) -> Result<CheckedTable<'_>, Fault>
    ensures { MatchResult result (λ table. table.bytes.now ≡ bytes.now) (λ fault. some (number_and_record fault) ≡ check_fault bytes.now) }
{
    checker::check(bytes)?;
    Ok(CheckedTable::new(bytes))
}
