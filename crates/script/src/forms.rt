// The forms that lines tell. A number that is too large for 32 bits is told as the largest, which is out of every range too.
ghost use Rattle.std.specs.Prelude.{◌≡◌, [], ◌∷◌};
ghost use Rattle.machine.specs.Reading.{first_of, read_form, station_shape, last_station_shape, order_shape, withdraw_shape, close_shape, end_shape};
ghost use Rattle.form_texts.specs.Capping.{told_of, Tells};
ghost use Rattle.machine.specs.Machine.{Machine};
ghost use Rattle.machine.specs.Script.{read_line};
ghost use Rattle.script.specs.Readings.{reading, applied, too_long};

use machine::{Form, ScriptRefusal};
use scanner::scan;

// Each of the six readers is one template and one variant: a generic one would take the template, the number of gaps and a
// closure for the variant, and be no plainer.

// The station that the line tells, if it has a next one.
fn read_station(line: &[u8]) -> Option<Form>
    ensures { result ≡ told_of (first_of (station_shape ∷ []) line.now) }
{
    let [station, benches, takes, holds, next] = scan::<5>(
        line,
        b"(station # (benches #) (takes #) (holds #) (next #))",
    )?;
    Some(Form::Station {
        station,
        benches,
        takes,
        holds,
        next: Some(next),
    })
}

fn read_last_station(line: &[u8]) -> Option<Form>
    ensures { result ≡ told_of (first_of (last_station_shape ∷ []) line.now) }
{
    let [station, benches, takes, holds] = scan::<4>(
        line,
        b"(station # (benches #) (takes #) (holds #) (last))",
    )?;
    Some(Form::Station {
        station,
        benches,
        takes,
        holds,
        next: None,
    })
}

fn read_order(line: &[u8]) -> Option<Form>
    ensures { result ≡ told_of (first_of (order_shape ∷ []) line.now) }
{
    let [order, at, urgency, due, start] = scan::<5>(
        line,
        b"(order # (at #) (urgency #) (due #) (start #))",
    )?;
    Some(Form::Order {
        order,
        at,
        urgency,
        due,
        start,
    })
}

fn read_withdrawal(line: &[u8]) -> Option<Form>
    ensures { result ≡ told_of (first_of (withdraw_shape ∷ []) line.now) }
{
    let [order, at] = scan::<2>(line, b"(withdraw # (at #))")?;
    Some(Form::Withdraw { order, at })
}

fn read_closing(line: &[u8]) -> Option<Form>
    ensures { result ≡ told_of (first_of (close_shape ∷ []) line.now) }
{
    let [station, at, into] = scan::<3>(line, b"(close # (at #) (into #))")?;
    Some(Form::Close { station, at, into })
}

fn read_end(line: &[u8]) -> Option<Form>
    ensures { result ≡ told_of (first_of (end_shape ∷ []) line.now) }
{
    let [at] = scan::<1>(line, b"(end #)")?;
    Some(Form::End { at })
}

// The form that the line tells; none where no form writes the line.
pub fn read_form(line: &[u8]) -> Option<Form>
    ensures value { result ≡ told_of (read_form line.now) }
    ensures told { Tells line.now result }
{
    read_station(line)
        .or_else(|| read_last_station(line))
        .or_else(|| read_order(line))
        .or_else(|| read_withdrawal(line))
        .or_else(|| read_closing(line))
        .or_else(|| read_end(line))
}

const LONGEST_LINE: usize = 120;

const LONGEST_SCRIPT: usize = 65_536;

// The form that the line tells, or why it tells none. By it the machine does what it does by the line.
pub fn read_line(line: &[u8]) -> Result<Form, ScriptRefusal>
    ensures value { result ≡ reading line.now }
    ensures machine { (m : Machine) → read_line line.now m ≡ applied result m }
{
    if line.len() > LONGEST_LINE {
        return Err(ScriptRefusal::TooLong);
    }
    read_form(line).ok_or(ScriptRefusal::Malformed)
}

// Whether the script has more bytes than are read.
pub fn too_long(script: &[u8]) -> bool
    ensures { result ≡ too_long script.now }
{
    script.len() > LONGEST_SCRIPT
}
