//! The byte of a capture at which a frame begins.

ghost use Rattle.std.specs.Prelude.{◌≡◌, ◌≢◌, ◌+◌, ◌-◌, ◌^◌, ◌<◌, ◌≤◌, ◌++◌, map, length, false, Err, Some, option_map, IfOk, IfSome, IsErrOf};
ghost use Rattle.std.specs.Option.{IfNone};
ghost use Rattle.rtk_frame.specs.Frames.{final_frames, frames, shifted};
ghost use Rattle.rtk_frame.specs.Stream.{CountRises};
ghost use Rattle.rtk_survey.specs.Counting.{shown_count};
ghost use Rattle.rtk_survey.specs.FramePlaces.{place_after, IsPlaceOfFrame};
ghost use Rattle.rtk_survey.specs.Steps.Looking.{place_if_last, looked, LooksThrough};
ghost use Rattle.rtk_survey.specs.Summary.{HasRisenBy};
ghost use Rattle.rtk_survey.specs.declared.survey_fault.SurveyFault.TheVariants.{Read, Endless};

use crate::survey_fault::SurveyFault;
use rtk_frame::{Answer, Scanner, Source};
use std::alloc::Global;

/// The most bytes that one read asks for.
const PIECE: usize = 32_768;

/// The bytes of a frame besides its payload.
const AROUND_PAYLOAD: u128 = 6;

// How far a capture was looked through.
#[derive(Drop)]
struct Looking {
    // How many frames still come before the one that is looked for.
    before: u64,
    // How many bytes were fed.
    fed: u128,
}

impl Looking {
    // A frame more, with a payload of so many bytes, behind which so many bytes are pending: the byte at which it
    // begins, if it is the one that is looked for.
    fn take_frame(&mut self, payload: usize, pending: usize) -> Option<u128>
        ensures place { result ≡ place_if_last self.old.before (self.old.fed - pending - (payload + 6)) }
        ensures left { self.new ≡ looked self.old }
    {
        if self.before == 0 {
            let end = self.fed.saturating_sub(pending as u128);
            return Some(end.saturating_sub(payload as u128 + AROUND_PAYLOAD));
        }
        self.before -= 1;
        None
    }

    // Looks through a piece.
    fn take_piece(&mut self, scanner: &mut Scanner, piece: &[u8]) -> Option<u128>
        requires is_open { scanner.old.ended ≡ false }
        requires fits { self.old.fed + length piece.now < 2 ^ 128 }
        requires within { length scanner.old.pending ≤ self.old.fed }
        ensures is_open { scanner.new.ended ≡ false }
        ensures found { IfSome result (λ place. place_after self.old.before (map (shifted (self.old.fed - length scanner.old.pending))
            (final_frames (scanner.old.pending ++ piece.now))) ≡ Some place) }
        ensures none { IfNone result (LooksThrough self.old scanner.old.pending piece.now self.new scanner.new.pending) }
    {
        let mut at = 0;
        'frames: loop {
            let fed = scanner.feed(&piece[at..]);
            at += fed.used;
            self.fed += fed.used as u128;
            let Answer::Found(payload) = fed.answer else {
                return None;
            };
            let size = payload.len();
            if let Some(place) = self.take_frame(size, scanner.pending_len()) {
                return Some(place);
            }
        }
    }

    // Looks through what is left at the end of the capture.
    fn take_rest(&mut self, scanner: &mut Scanner) -> Option<u128>
        requires within { length scanner.old.pending ≤ self.old.fed }
        ensures { result ≡ place_after self.old.before (map (shifted (self.old.fed - length scanner.old.pending)) (frames scanner.old.pending)) }
    {
        'frames: while let Some(payload) = scanner.rest() {
            let size = payload.len();
            if let Some(place) = self.take_frame(size, scanner.pending_len()) {
                return Some(place);
            }
        }
        None
    }
}

// A place as it is told. It stays at the greatest `u64`.
fn shown_place(place: Option<u128>) -> Option<u64>
    ensures { result ≡ option_map shown_count place }
{
    match place {
        Some(place) => Some(place.min(u128::from(u64::MAX)) as u64),
        None => None,
    }
}

/// The byte, counted from 0, at which the frame begins that comes after so many others; `None` if there are no
/// more frames. The capture is read up to this frame, or to its end.
pub fn place_of_frame<R: Source>(
    alloc: Global,
    reader: &mut R,
    before: u64,
    max_reads: u64,
) -> Result<Option<u64>, SurveyFault>
    // Done: the place in what was read.
    ensures place { IfOk result (λ found. IsPlaceOfFrame before (R.given reader.old) (R.given reader.new) found) }
    ensures reads { R.calls reader.new ≤ R.calls reader.old + max_reads }

    // Each fault comes only if its cause is there.
    ensures read_failed { IsErrOf result Read → CountRises (R.failures reader.old) (R.failures reader.new) }
    ensures no_failed_read { result ≢ Err Read → R.failures reader.new ≡ R.failures reader.old }
    ensures endless { IsErrOf result Endless → HasRisenBy (R.calls reader.old) (R.calls reader.new) max_reads }
{
    let Ok(mut scanner) = Scanner::new(alloc) else {
        return Err(SurveyFault::OutOfMemory);
    };
    let mut looking = Looking { before, fed: 0 };
    let mut piece = vec![in alloc; 0u8; PIECE]?;
    'reads: for _made in 0..max_reads {
        let Ok(count) = reader.read(piece.as_mut_slice()) else {
            return Err(SurveyFault::Read);
        };
        if count == 0 {
            return Ok(shown_place(looking.take_rest(&mut scanner)));
        }
        if let Some(place) = looking.take_piece(&mut scanner, &piece[..count]) {
            return Ok(shown_place(Some(place)));
        }
    }
    Err(SurveyFault::Endless)
}
