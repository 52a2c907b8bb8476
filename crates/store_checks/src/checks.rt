// What helpers of tests check by.
ghost use Rattle.std.specs.Prelude.{◌↔◌, IsOk, IsTrue};

use std::test::Fail;

// A test's failure where the check does not hold, so that a helper ends by an error and keeps what it ensures.
pub fn check(holds: bool) -> Result<(), Fail>
    ensures { IsOk result ↔ IsTrue holds }
{
    if holds {
        Ok(())
    } else {
        Err(Fail::new("a check does not hold"))
    }
}
