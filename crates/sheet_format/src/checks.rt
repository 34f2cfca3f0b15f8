// The checks of a sheet, in the order of paper 01.
ghost use Rattle.std.specs.Prelude.{◌≡◌};
ghost use Rattle.refusal.specs.Refusal.{number_in};
ghost use Rattle.sheet_format.specs.Check.{check_number};

use crate::sheet::Sheet;
use refusal::Refusal;

// Whether a sheet is accepted, or why it is refused.
pub fn check(sheet: &[u8]) -> Result<(), Refusal>
    ensures { number_in result ≡ check_number sheet.now }
{
    let sheet = Sheet::of(sheet)?;
    sheet.check_pairs()?;
    sheet.check_records()
}
