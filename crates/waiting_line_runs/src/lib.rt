// What each program of a waiting line does: it reads standard input and prints what is told of it. The programs differ in
// the store that their `main` names, and in nothing else.
#![tactic(auto)]

use std::alloc::{AllocError, Global};
use std::io::Read;

// Prints what the given function makes of standard input.
pub fn run<R: Input + Print + AllocGlobal, F>(rt: &R, printed: F) -> anyhow::Result<()>
where
    F: FnOnce(&[u8], Global) -> Result<String, AllocError>,
    requires { F.IsAlwaysCallable printed }
{
    let heap = rt.alloc();
    let mut text = Vec::new(heap);
    let _ = rt.reader().read_to_end(&mut text)?;
    let answer = printed(&text, heap)?;
    rt.print(answer)?;
    Ok(())
}
