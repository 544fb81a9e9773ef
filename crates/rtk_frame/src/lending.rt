//! The bytes of a ring as one slice, lent and given back as they were.

ghost use Rattle.std.specs.Prelude.{◌≡◌};
ghost use Rattle.std.specs.Borrow.{sem};
ghost use Rattle.rtk_frame.specs.Steps.Ring.{RingEndsAs, LendsBytes, with_bytes};

use circular_buffer::HeapCircularBuffer;

// Returns all bytes of the ring, in one slice to write to.
fn all_bytes_mut(ring: &mut HeapCircularBuffer<u8>) -> &mut [u8]
    ensures* writes_back { sem 𝓛 (LendsBytes ring.entry result) }
    ensures value { result.now ≡ ring.old.items }
    ensures same { with_bytes ring.old result.now ≡ ring.old }
{
    ring.make_contiguous()
}

/// Returns all bytes of the ring, in one slice. The ring stays as it is.
///
/// The prover has no rule for a `&mut` that is given to the caller as a `&`, so the proof is
/// written by hand.
pub(crate) fn all_bytes(ring: &mut HeapCircularBuffer<u8>) -> &[u8]
    ensures* after { sem 𝓛 (RingEndsAs ring.entry ring.old) }
    ensures value { result.now ≡ ring.old.items }
{
    all_bytes_mut(ring)
}
