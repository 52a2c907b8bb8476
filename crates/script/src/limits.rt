// The limits of the lines, which a program sets before the script is run.
ghost use Rattle.std.specs.Prelude.{◌≡◌, Some};
ghost use Rattle.machine.specs.Script.{limit_of, script_limits};

use crate::forms::read_form;
use machine::Form;
use scanner::Lines;

// The limit of a queue that no station has.
const NO_LIMIT: u16 = u16::MAX;

// Notes the limit that a station in range sets.
fn note_limit(limits: &mut [u16; 32], form: Form)
    ensures { limits.new ≡ limit_of (Some form) limits.old }
{
    if let Form::Station { station, holds, .. } = form {
        if form.in_range() {
            // It is in range, so it fits: `try_from` would have a failure that cannot come.
            limits[station as usize] = holds as u16;
        }
    }
}

// The limit of each station's line by the stations of the script, and 65,535 for a queue with no station. Lines that tell no
// station in range set none, so that there are limits for every script.
pub fn script_limits(script: &[u8]) -> [u16; 32]
    ensures { result ≡ script_limits script.now }
{
    let mut limits = [NO_LIMIT; 32];
    // no `filter_map`: the invariant speaks of the lines that are left, which an iterator of forms would hide
    for line in Lines::of(script) {
        if let Some(form) = read_form(line) {
            note_limit(&mut limits, form);
        }
    }
    limits
}
