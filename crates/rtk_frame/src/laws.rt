//! Laws of frames: what the frames of a text are, and that they don't depend on how it is cut into
//! pieces; and laws of what passed through sources and sinks.
//!
//! Each function here does nothing. Its contract is the law, and a caller that calls it may cite
//! it; proofs of other crates cite the same facts from `proofs/PublicLaws.antt`.

ghost use Rattle.std.specs.Prelude.{◌≡◌, ◌+◌, ◌-◌, ◌<◌, ◌≤◌, ◌↔◌, ◌∷◌, ◌++◌};
ghost use Rattle.std.specs.Prelude.{ℕ, List, [], map, take, drop, length, Option, Some, Result, slice_index_or, sum_by};
ghost use Rattle.rtk_frame.specs.Frame.{IsFrameAt, payload_of, framed};
ghost use Rattle.rtk_frame.specs.Frames.{Frame, end_of, payloads, IsFramesFrom, AreFinal, IsPending};
ghost use Rattle.rtk_frame.specs.Frames.{frames, final_frames, pending, shifted, IsFirst};
ghost use Rattle.rtk_frame.specs.Stream.{greatest_count, with_more, ReadsOne};
ghost use Rattle.rtk_frame.specs.Memory.{MemSourceView, MemSinkView, IsSpent};
ghost use Rattle.rtk_frame.specs.declared.memory.After.TheVariants.{End};
ghost use Rattle.rtk_frame.specs.declared.stream.StreamFault.{StreamFault};

use crate::memory::{MemSink, MemSource};
use crate::stream::{Sink, Source};

/// The bytes that `encode_frame` writes for a payload are a frame with this payload, so
/// `next_frame` finds it at its place.
pub fn frame_of_a_payload()
    ensures is { (payload : List ℕ) → length payload ≤ 1023 → IsFrameAt (framed payload) 0 }
    ensures payload { (payload : List ℕ) → length payload ≤ 1023 → payload_of (framed payload) ≡ payload }
    ensures length { (payload : List ℕ) → length (framed payload) ≡ length payload + 6 }
{}

/// A frame is at the place of each of the frames of a text, no frame overlaps the one before it,
/// and no frame begins at any other place that they leave free. No other list has these properties.
pub fn frames_of_a_text()
    ensures are { (b : List ℕ) → IsFramesFrom b 0 (frames b) }
    ensures only { (b : List ℕ) (fs : List Frame) → IsFramesFrom b 0 fs → fs ≡ frames b }
{}

/// The final frames are the text's frames that have no free place before them at which a frame may
/// begin when more bytes come. No other list has this property.
pub fn final_frames_of_a_text()
    ensures are { (b : List ℕ) → AreFinal b (frames b) (final_frames b) }
    ensures only { (b : List ℕ) (fs : List Frame) → AreFinal b (frames b) fs → fs ≡ final_frames b }
{}

/// The pending bytes are the suffix of a text from the first free place at which a frame may begin
/// when more bytes come. No other list has this property.
pub fn pending_of_a_text()
    ensures is { (b : List ℕ) → IsPending b (frames b) (pending b) }
    ensures only { (b s : List ℕ) → IsPending b (frames b) s → s ≡ pending b }
{}

/// If more bytes follow a text, its final frames stay, and after them come the final frames of its
/// pending bytes with the bytes that follow.
pub fn final_frames_in_any_cut()
    ensures placed { (b c : List ℕ) → final_frames (b ++ c) ≡ final_frames b
        ++ map (shifted (length b - length (pending b))) (final_frames (pending b ++ c)) }
    ensures payloads { (b c : List ℕ) → payloads (final_frames (b ++ c))
        ≡ payloads (final_frames b) ++ payloads (final_frames (pending b ++ c)) }
{}

/// The frames of a text are its final frames, and then the frames of its pending bytes.
pub fn frames_in_any_cut()
    ensures placed { (b : List ℕ) → frames b ≡ final_frames b
        ++ map (shifted (length b - length (pending b))) (frames (pending b)) }
    ensures payloads { (b : List ℕ) → payloads (frames b)
        ≡ payloads (final_frames b) ++ payloads (frames (pending b)) }
{}

/// If more bytes follow a text, all of them together have the same pending bytes as the text's
/// pending bytes with the bytes that follow.
pub fn pending_in_any_cut()
    ensures { (b c : List ℕ) → pending (b ++ c) ≡ pending (pending b ++ c) }
{}

/// The text after its first frame has the other frames.
pub fn frames_after_the_first()
    ensures placed { (b : List ℕ) (f : Frame) (others : List Frame) → frames b ≡ f ∷ others
        → others ≡ map (shifted (end_of f)) (frames (drop (end_of f) b)) }
    ensures payloads { (b payload rest : List ℕ) → IsFirst (frames b) b payload rest
        → payloads (frames b) ≡ payload ∷ payloads (frames rest) }
{}

/// The text after its first final frame has the other final frames, and the same pending bytes.
pub fn final_frames_after_the_first()
    ensures placed { (b : List ℕ) (f : Frame) (others : List Frame) → final_frames b ≡ f ∷ others
        → (others ≡ map (shifted (end_of f)) (final_frames (drop (end_of f) b)))
        × (pending b ≡ pending (drop (end_of f) b)) }
    ensures payloads { (b payload rest : List ℕ) → IsFirst (final_frames b) b payload rest
        → (payloads (final_frames b) ≡ payload ∷ payloads (final_frames rest))
        × (pending b ≡ pending rest) }
{}

/// If the pending bytes h and the used bytes of a piece begin with a final frame, then the bytes
/// after this frame have the other final frames and the same pending bytes. A caller of `feed`
/// needs this law.
pub fn final_frames_after_found()
    ensures { (h piece : List ℕ) (used : ℕ) (payload rest : List ℕ)
        → IsFirst (final_frames (h ++ take used piece)) (h ++ take used piece) payload rest
        → (payloads (final_frames (h ++ piece))
        ≡ payload ∷ payloads (final_frames (rest ++ drop used piece)))
        × (pending (h ++ piece) ≡ pending (rest ++ drop used piece)) }
{}

/// If the pending bytes h and the used bytes of a piece begin with a final frame, the other final frames are
/// those of the bytes after it, further on by its end. If no more bytes come, the same holds of all frames. A
/// caller of `feed` and `rest` that counts bytes needs this law.
pub fn places_after_found()
    ensures piece { (h piece : List ℕ) (used : ℕ) (payload rest : List ℕ) → used ≤ length piece
        → IsFirst (final_frames (h ++ take used piece)) (h ++ take used piece) payload rest
        → (f : Frame) × (final_frames (h ++ piece) ≡ f ∷ map (shifted (end_of f)) (final_frames (rest ++ drop used piece)))
        × (f.payload ≡ payload) × (end_of f + length rest ≡ length h + used) }
    ensures rest { (h payload rest : List ℕ) → IsFirst (frames h) h payload rest
        → (f : Frame) × (frames h ≡ f ∷ map (shifted (end_of f)) (frames rest))
        × (f.payload ≡ payload) × (end_of f + length rest ≡ length h) }
{}

/// If no more bytes pass, nothing changes. Bytes that passed in two parts have passed as one text.
pub fn passed_bytes_join()
    ensures none { (known : Option (List ℕ)) → with_more known [] ≡ known }
    ensures parts { (known : Option (List ℕ)) (more rest : List ℕ)
        → with_more (with_more known more) rest ≡ with_more known (more ++ rest) }
{}

/// When one of many sources is read, the calls of all of them together rise by at most one, and by
/// exactly one if the count of calls of that source was below its greatest value.
pub fn calls_of_one_read<R: Source>()
    ensures at_most { (before after : List R) (link : ℕ) (result : Result ℕ StreamFault) (buf : List ℕ) (none : R)
        → link < length before → ReadsOne R.given R.failures R.calls before after link result buf
        → sum_by R.calls after ≤ sum_by R.calls before + 1 }
    ensures one { (before after : List R) (link : ℕ) (result : Result ℕ StreamFault) (buf : List ℕ) (none : R)
        → link < length before → ReadsOne R.given R.failures R.calls before after link result buf
        → R.calls (slice_index_or before link none) < greatest_count → sum_by R.calls after ≡ sum_by R.calls before + 1 }
{}

/// Of a source and a sink over memory all that passed is known, and each call is counted.
pub fn memory_is_known()
    ensures given { (s : MemSourceView) → ⟦<MemSource as Source>⟧.given s ≡ Some s.given }
    ensures failed_reads { (s : MemSourceView) → ⟦<MemSource as Source>⟧.failures s ≡ s.failures }
    ensures reads { (s : MemSourceView) → ⟦<MemSource as Source>⟧.calls s ≡ s.calls }
    ensures end { (s : MemSourceView) → ⟦<MemSource as Source>⟧.is_at_end s ↔ IsSpent s End }
    ensures taken { (s : MemSinkView) → ⟦<MemSink as Sink>⟧.taken s ≡ Some s.taken }
    ensures failed_writes { (s : MemSinkView) → ⟦<MemSink as Sink>⟧.failures s ≡ s.failures }
{}
