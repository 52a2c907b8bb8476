// Reads lines that a template writes: bytes that stand as they are, with numerals between them.
#![tactic(auto)]

ghost use Rattle.std.specs.Prelude.{◌≡◌, ℕ, true, List};
ghost use Rattle.scanner.specs.Templates.{Filled, clear, Scans};

mod lines;
mod numbers;
mod numerals;
mod tokens;

pub use lines::{Lines, first_line};
pub use numbers::{NumberToken, numeral};
pub use tokens::Token;
use tokens::after;

// The byte of a template that stands for a numeral.
pub const GAP: u8 = b'#';

// The numbers of a line that the template writes, one for each of its N gaps; one that is too large for 32 bits is told
// as the largest.
pub fn scan<const N: usize>(line: &[u8], template: &[u8]) -> Option<[u32; N]>
    ensures { Scans N template.now line.now result }
{
    // The count stands beside the array: of an `iter_mut` advanced by hand in a loop a proof knows the places that are left,
    // and not what was written to the others. Tried: no invariant could speak of the numbers that are read.
    let mut numbers = [0; N];
    let mut count = 0;
    let mut rest = line;
    for byte in template {
        if *byte == GAP {
            if count >= N {
                return None;
            }
            let token = numeral(rest)?;
            numbers[count] = token.value;
            count += 1;
            rest = token.digits.rest;
        } else {
            rest = after(rest, *byte)?;
        }
    }
    (rest.is_empty() && count == N).then_some(numbers)
}

// A theorem, with nothing to compute: a template whose gaps are followed by neither digits nor gaps writes no line with
// other numerals than those that were read.
pub fn numerals_are_unique()
    ensures { (t line : List ℕ) (ds es : List (List ℕ)) → clear t ≡ true → Filled t line ds → Filled t line es → ds ≡ es }
{}
