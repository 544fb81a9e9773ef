//! Reading a capture to its end, once.
//!
//! A read asks for 32,768 bytes. A frame is decoded where the scanner holds it, whatever the pieces
//! are.

ghost use Rattle.std.specs.Prelude.{◌≡◌, ◌≢◌, ◌≤◌, ◌+◌, ◌++◌, [], ◌∷◌, ℕ, List, length, take, Err, IfOk, IsErrOf, OnOk, false};
ghost use Rattle.rtk_frame.specs.Frames.{frames, final_frames, payloads, pending};
ghost use Rattle.rtk_frame.specs.Stream.{CountRises};
ghost use Rattle.rtk_message.specs.AnyDecoded.{IsValid};
ghost use Rattle.rtk_survey.specs.Counting.{shown_count};
ghost use Rattle.rtk_survey.specs.Summary.{HasRisenBy};
ghost use Rattle.rtk_survey.specs.Surveys.{HoldsMore, Surveys, look_if_empty};
ghost use Rattle.rtk_survey.specs.Tracing.{entries_of_message};
ghost use Rattle.rtk_survey.specs.declared.survey_fault.SurveyFault.TheVariants.{Read, Endless, Write};

use crate::beside_gps::put_cells_beside_gps;
use crate::contents::Contents;
use crate::look::{Look, look_of};
use crate::survey::CaptureSurvey;
use crate::survey_fault::SurveyFault;
use crate::target::Target;
use arrayvec::ArrayVec;
use rtk_frame::{Answer, Scanner, Source};
use rtk_message::{Accepted, AnyDecoder, AnyMessage};
use rtk_obs::{CellEntry, SignalEntry, put_cells_msm, put_cells_of};
use std::alloc::{AllocError, Global};

/// The most bytes that one read asks for.
const PIECE: usize = 32_768;

/// 1004 to 1006, 1012, and MSM4 to MSM7 of all systems.
const READ: Accepted = Accepted {
    obs1012: true,
    ..Accepted::ALL
};

/// How many bytes of a capture are kept from its beginning.
const HEAD: usize = 512;

// Decodes payloads one after another.
#[derive(Drop)]
struct Decoding {
    decoder: AnyDecoder,
    // The cells of GPS of the last message. Those of the next one are put over them: a list of its own
    // would be cleared for each message.
    room: ArrayVec<CellEntry, 64>,
    // Its cells of other systems.
    signals: ArrayVec<SignalEntry, 64>,
}

// Puts the cells of GPS of a message over a list.
fn put_entries(message: &AnyMessage, found: &mut ArrayVec<CellEntry, 64>)
    requires { IsValid message.now }
    ensures { found.new.items ≡ entries_of_message message.now }
{
    let _ = match message {
        AnyMessage::Message(message) => put_cells_of(message, found),
        AnyMessage::Msm(message) => put_cells_msm(message, found),
        AnyMessage::Obs1012(_) => {
            found.clear();
            true
        }
    };
}

impl Decoding {
    // Nothing was decoded.
    fn new() -> Decoding {
        Decoding {
            decoder: AnyDecoder::new(),
            room: ArrayVec::new(),
            signals: ArrayVec::new(),
        }
    }

    // Takes a frame, by its payload.
    fn take_frame(
        &mut self,
        alloc: Global,
        payload: &[u8],
        contents: &mut Contents,
    ) -> Result<(), AllocError>
        ensures { OnOk result (HoldsMore (payload.now ∷ []) contents.old contents.new) }
    {
        match self.decoder.read(READ, payload) {
            Ok(message) => {
                put_entries(message, &mut self.room);
                put_cells_beside_gps(message, &mut self.signals);
                let entries = self.room.as_slice();
                let signals = self.signals.as_slice();
                contents.take_message(alloc, payload, message, entries, signals)
            }
            Err(fault) => contents.take_fault(alloc, payload, *fault),
        }
    }
}

// Takes the frames that a piece completes.
fn take_piece(
    alloc: Global,
    scanner: &mut Scanner,
    decoding: &mut Decoding,
    contents: &mut Contents,
    piece: &[u8],
) -> Result<(), AllocError>
    requires { scanner.old.ended ≡ false }
    ensures is_open { OnOk result (scanner.new.ended ≡ false) }
    ensures pending { OnOk result (scanner.new.pending ≡ pending (scanner.old.pending ++ piece.now)) }
    ensures held { OnOk result (HoldsMore (payloads (final_frames (scanner.old.pending ++ piece.now))) contents.old contents.new) }
{
    let mut at = 0;
    'frames: loop {
        let fed = scanner.feed(&piece[at..]);
        at += fed.used;
        let Answer::Found(payload) = fed.answer else {
            return Ok(());
        };
        decoding.take_frame(alloc, payload, contents)?;
    }
}

// Takes the frames that are left at the end of the capture.
fn take_rest(
    alloc: Global,
    scanner: &mut Scanner,
    decoding: &mut Decoding,
    contents: &mut Contents,
) -> Result<(), AllocError>
    ensures { OnOk result (HoldsMore (payloads (frames scanner.old.pending)) contents.old contents.new) }
{
    'frames: while let Some(payload) = scanner.rest() {
        decoding.take_frame(alloc, payload, contents)?;
    }
    Ok(())
}

// Appends bytes that fit.
fn add(head: &mut ArrayVec<u8, HEAD>, bytes: &[u8])
    requires { length head.old.items + length bytes.now ≤ 512 }
    ensures { head.new.items ≡ head.old.items ++ bytes.now }
{
    if head.try_extend_from_slice(bytes).is_err() {
        unreachable!();
    }
}

// Adds a piece to the first bytes of a capture, as far as there is room.
fn add_piece(head: &mut ArrayVec<u8, HEAD>, piece: &[u8])
    ensures { head.new.items ≡ take 512 (head.old.items ++ piece.now) }
{
    let room = head.remaining_capacity();
    let count = piece.len().min(room);
    add(head, &piece[..count]);
}

// What a capture looks like, if it has no frame.
fn look_if_empty(frames: u64, head: &[u8]) -> Option<Look>
    ensures { (count : ℕ) (bytes : List ℕ) → frames ≡ shown_count count → head.now ≡ take 512 bytes
        → result ≡ look_if_empty count bytes }
{
    if frames == 0 {
        Some(look_of(head))
    } else {
        None
    }
}

/// Reads a capture once, to its end. What it tells of the station of a conversion is kept if `target`
/// asks for it.
pub fn survey_capture<R: Source>(
    alloc: Global,
    reader: &mut R,
    target: Option<Target>,
    max_reads: u64,
) -> Result<CaptureSurvey, SurveyFault>
    // Done: the survey of what was read.
    ensures survey { IfOk result (λ survey. Surveys target (R.given reader.old) (R.given reader.new) survey) }
    ensures to_the_end { OnOk result (R.is_at_end reader.new) }
    ensures reads { R.calls reader.new ≤ R.calls reader.old + max_reads }

    // Each fault comes only if its cause is there, and no call fails without its fault.
    ensures read_failed { IsErrOf result Read → CountRises (R.failures reader.old) (R.failures reader.new) }
    ensures no_failed_read { result ≢ Err Read → R.failures reader.new ≡ R.failures reader.old }
    ensures endless { IsErrOf result Endless → HasRisenBy (R.calls reader.old) (R.calls reader.new) max_reads }
    ensures no_write { IsErrOf result Write → ⊥ }
{
    let Ok(mut scanner) = Scanner::new(alloc) else {
        return Err(SurveyFault::OutOfMemory);
    };
    let mut decoding = Decoding::new();
    let mut contents = Contents::new(alloc, target);
    let mut piece = vec![in alloc; 0u8; PIECE]?;
    let mut bytes = 0u64;
    let mut head = ArrayVec::new();
    'reads: for _made in 0..max_reads {
        let Ok(count) = reader.read(piece.as_mut_slice()) else {
            return Err(SurveyFault::Read);
        };
        if count == 0 {
            take_rest(alloc, &mut scanner, &mut decoding, &mut contents)?;
            let look = look_if_empty(contents.frames, head.as_slice());
            return Ok(CaptureSurvey {
                bytes,
                look,
                contents,
            });
        }
        let part = &piece[..count];
        bytes = bytes.saturating_add(count as u64);
        add_piece(&mut head, part);
        take_piece(alloc, &mut scanner, &mut decoding, &mut contents, part)?;
    }
    Err(SurveyFault::Endless)
}
