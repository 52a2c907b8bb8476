// Examples that the checker computes on the definitions.
ghost use Rattle.stores.specs.Examples.{PastLimit};

// Limits of 1 on two queues with one entry each: their meld has count 2, and a put into it is then refused with 11.
pub fn limits_bind_puts_only()
    ensures { PastLimit }
{}
