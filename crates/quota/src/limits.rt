// The limits of a layer, one for each queue, and the layer's height.
ghost use Rattle.std.specs.Prelude.{◌≡◌, ◌+◌, ◌<◌, length, nat_le, slice_index};
ghost use Rattle.stores.specs.declared.refusals.Refusal.TheVariants.{AtLimit};

use stores::Refusal;

// The length is no ghost field: the checker covers no layer with one over a store that holds a `&mut`.
#[derive(Drop)]
pub struct Limits {
    limits: [u16; 32],
    pub(crate) height: u8,
}

impl Limits {
    // Those of a layer over a store of the height `below`. Each layer's making asks `below < 255` once, and its test gives it.
    pub(crate) fn over(below: u8, limits: [u16; 32]) -> Limits
        requires { below < 255 }
        ensures limits { result.limits ≡ limits }
        ensures height { result.height ≡ below + 1 }
    {
        Limits {
            limits,
            height: below + 1,
        }
    }

    // Whether the queue is at its limit when it has so many entries.
    pub(crate) fn reached(&self, queue: u8, count: u16) -> bool
        requires { queue < length self.now.limits }
        ensures { result ≡ nat_le (slice_index self.now.limits queue) count }
    {
        count >= self.limits[queue as usize]
    }

    pub(crate) fn refusal(&self) -> Refusal
        ensures { result ≡ AtLimit self.now.height }
    {
        Refusal::AtLimit {
            height: self.height,
        }
    }
}
