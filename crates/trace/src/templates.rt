// Lines that a template writes, with numbers in its gaps.
ghost use Rattle.std.specs.Prelude.{◌≡◌, ◌+◌, ◌*◌, ◌<◌, ◌≤◌, [], ◌∷◌, map, length, decimal};
ghost use Rattle.scanner.specs.Templates.{fill};
ghost use Rattle.trace.specs.Puts.{Put};

use scanner::GAP;

// A lent buffer, and how many of its bytes are written. A line is never on the heap, so it is put together here and not
// by `format!`.
#[derive(Drop)]
struct Writer<'a> {
    out: &'a mut [u8],
    at: usize,
}

impl<'a> Writer<'a> {
    fn put_byte(&mut self, byte: u8)
        requires { self.old.at < length self.old.out.now }
        ensures same_buffer { self.new.out.ghost_name ≡ self.old.out.ghost_name }
        ensures same_length { length self.new.out.now ≡ length self.old.out.now }
        ensures put { Put self.old.out.now self.old.at (byte ∷ []) self.new.out.now self.new.at }
    {
        self.out[self.at] = byte;
        self.at += 1;
    }

    fn put_number(&mut self, number: u32)
        requires { self.old.at + 10 ≤ length self.old.out.now }
        ensures same_buffer { self.new.out.ghost_name ≡ self.old.out.ghost_name }
        ensures same_length { length self.new.out.now ≡ length self.old.out.now }
        ensures put { Put self.old.out.now self.old.at (decimal number) self.new.out.now self.new.at }
    {
        self.at = put_digits(self.out, self.at, number);
    }
}

// Puts the digits of the number, of which there are at most ten, and answers the place behind them. The place goes from
// call to call in a register: a writer lent to a call that calls itself is read and written in memory, and a line then
// takes up to twice the time.
fn put_digits(out: &mut [u8], at: usize, number: u32) -> usize
    requires { at + 10 ≤ length out.old }
    ensures { Put out.old at (decimal number) out.new result }
{
    // a digit fits: `try_from` would have a failure that cannot come
    if number < 10 {
        out[at] = b'0' + number as u8;
        return at + 1;
    }
    let last = put_digits(out, at, number / 10);
    out[last] = b'0' + (number % 10) as u8;
    last + 1
}

// Writes the template with the numbers in its gaps to the front of the buffer, and answers how many bytes that are. A gap
// with no number left ends the line.
pub fn fill_template(out: &mut [u8], template: &[u8], numbers: &[u32]) -> usize
    requires { length template.now + 9 * length numbers.now ≤ length out.old }
    ensures fits { result ≤ length template.now + 9 * length numbers.now }
    ensures put { Put out.old 0 (fill template.now (map decimal numbers.now)) out.new result }
{
    let mut writer = Writer { out, at: 0 };
    let mut numbers = numbers.iter();
    for byte in template {
        if *byte == GAP {
            let Some(number) = numbers.next() else {
                break;
            };
            writer.put_number(*number);
        } else {
            writer.put_byte(*byte);
        }
    }
    writer.at
}
