// What is printed of orders that were served: each as a bench takes it, and how many.
ghost use Rattle.std.specs.Prelude.{◌≡◌, IfOk, string_bytes};
ghost use Rattle.service_reports.specs.Texts.{service_text};

use elements::LineEntry;
use std::alloc::{AllocError, Global};

pub fn service_text(served: &[LineEntry], heap: Global) -> Result<String, AllocError>
    ensures { IfOk result (λ s. string_bytes s ≡ service_text served.now) }
{
    // Each line is printed at this place only, so a type with `Display` for it would be no plainer.
    let mut text = String::new(heap);
    for entry in served {
        writeln!(text, "(take {})", entry.order)?;
    }
    writeln!(text, "(taken {})", served.len())?;
    Ok(text)
}
