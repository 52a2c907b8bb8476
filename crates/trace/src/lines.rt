// Each kind of line, by its template.
ghost use Rattle.std.specs.Prelude.{◌≡◌, ◌≤◌, length};
ghost use Rattle.machine.specs.Script.{script_number, script_layer};
ghost use Rattle.machine.specs.Text.{record_line, end_line, fault_line, refused_line};
ghost use Rattle.trace.specs.Lines.{Written};
ghost use Rattle.trace.specs.Records.{record_template, fault_template};

use crate::templates::fill_template;
use machine::{Fault, Record, RecordKind, ScriptRefusal, StoreName, Totals};

// The template of a record's line.
fn record_template(kind: RecordKind) -> &'static [u8]
    ensures { result.now ≡ record_template kind }
{
    match kind {
        RecordKind::Start { .. } => b"(at # (start # #))\n",
        RecordKind::Wait { .. } => b"(at # (wait # #))\n",
        RecordKind::Away { .. } => b"(at # (away # #))\n",
        RecordKind::Withdrawn { .. } => b"(at # (withdrawn #))\n",
        RecordKind::Missed { .. } => b"(at # (missed #))\n",
        RecordKind::Finish { .. } => b"(at # (finish # #))\n",
        RecordKind::Done { .. } => b"(at # (done #))\n",
        RecordKind::Close { .. } => b"(at # (close # # #))\n",
        RecordKind::Kept { .. } => b"(at # (kept # #))\n",
    }
}

// That there is room for any line is a fact of the lent slice in this call, so each of the four asks for it: a type for it
// would hold the `&mut`, and each would have to promise that it is still the same buffer.
pub fn record_line(record: &Record, out: &mut [u8]) -> usize
    requires { 96 ≤ length out.old }
    ensures { Written (record_line «record».now) out.old out.new result }
{
    let at = record.at;
    let template = record_template(record.kind);
    match record.kind {
        RecordKind::Start { order, station }
        | RecordKind::Wait { order, station }
        | RecordKind::Away { order, station }
        | RecordKind::Finish { order, station } => {
            fill_template(out, template, &[at, u32::from(order), u32::from(station)])
        }
        RecordKind::Withdrawn { order }
        | RecordKind::Missed { order }
        | RecordKind::Done { order } => fill_template(out, template, &[at, u32::from(order)]),
        RecordKind::Close {
            station,
            into,
            moved,
        } => fill_template(
            out,
            template,
            &[at, u32::from(station), u32::from(into), u32::from(moved)],
        ),
        RecordKind::Kept { station, into } => {
            fill_template(out, template, &[at, u32::from(station), u32::from(into)])
        }
    }
}

pub fn end_line(at: u32, totals: &Totals, out: &mut [u8]) -> usize
    requires { 96 ≤ length out.old }
    ensures { Written (end_line at totals.now) out.old out.new result }
{
    let inside = u32::from(totals.waiting) + u32::from(totals.serving);
    fill_template(
        out,
        b"(end # (done #) (away #) (withdrawn #) (inside #))\n",
        &[
            at,
            u32::from(totals.done),
            u32::from(totals.away),
            u32::from(totals.withdrawn),
            inside,
        ],
    )
}

// The template of the line of a fault.
fn fault_template(store: StoreName) -> &'static [u8]
    ensures { result.now ≡ fault_template store }
{
    match store {
        StoreName::Events => b"(fault # (cause #) (store events) (layer #))\n",
        StoreName::Orders => b"(fault # (cause #) (store orders) (layer #))\n",
    }
}

pub fn fault_line(fault: &Fault, out: &mut [u8]) -> usize
    requires { 96 ≤ length out.old }
    ensures { Written (fault_line fault.now) out.old out.new result }
{
    let cause = u32::from(fault.refusal.number());
    let height = u32::from(fault.refusal.height());
    fill_template(
        out,
        fault_template(fault.store),
        &[fault.instant, cause, height],
    )
}

pub fn refused_line(refusal: &ScriptRefusal, line: u32, out: &mut [u8]) -> usize
    requires { 96 ≤ length out.old }
    ensures { Written (refused_line (script_number refusal.now) line (script_layer refusal.now)) out.old out.new result }
{
    let number = u32::from(refusal.number());
    match refusal.layer() {
        Some(height) => fill_template(
            out,
            b"(refused # (line #) (layer #))\n",
            &[number, line, u32::from(height)],
        ),
        None => fill_template(out, b"(refused # (line #))\n", &[number, line]),
    }
}
