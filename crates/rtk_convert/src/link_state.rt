//! One link: its scanner and the newest epoch that came on it.

ghost use Rattle.std.specs.Prelude.{◌≡◌, ◌≤◌, ◌++◌, length, true, false, OnOk};
ghost use Rattle.rtk_frame.specs.Frames.{final_frames, frames, payloads, pending};
ghost use Rattle.rtk_convert.specs.Outcome.{NamesFailedStreams};
ghost use Rattle.rtk_convert.specs.Steps.LinkFrames.{TakesFrames};
ghost use Rattle.rtk_convert.specs.History.{later_of};
ghost use Rattle.rtk_convert.specs.Writing.{written};

use crate::conversion::Conversion;
use crate::fault::ConvertFault;
use crate::link_number::LinkNumber;
use rtk_frame::{Answer, Scanner, Sink};
use rtk_message::AnyDecoder;
use rtk_obs::{GpsMs, clock_laws};

/// A link. It is closed exactly if its scanner has ended.
///
/// Its memory does not grow: the scanner holds at most 2,058 bytes, of which at most 1,029 are pending.
#[derive(Drop)]
pub(crate) struct LinkState {
    pub(crate) scanner: Scanner,
    /// The greatest observation epoch that came on it, late messages included.
    pub(crate) newest: Option<GpsMs>,
}

// Returns the later of two epochs.
fn later_of(a: Option<GpsMs>, b: Option<GpsMs>) -> Option<GpsMs>
    ensures { result ≡ later_of a b }
{
    match (a, b) {
        (Some(a), Some(b)) => Some(if a < b { b } else { a }),
        (Some(a), None) => Some(a),
        (None, b) => b,
    }
}

impl LinkState {
    /// Feeds a piece, and takes the frames that it finds.
    pub(crate) fn feed<O: Sink, L: Sink>(
        &mut self,
        number: LinkNumber,
        conversion: &mut Conversion,
        decoder: &mut AnyDecoder,
        piece: &[u8],
        out: &mut O,
        log: &mut L,
    ) -> Result<(), ConvertFault>
        requires is_open { self.old.scanner.ended ≡ false }
        requires going { conversion.old.stopped ≡ false }
        requires few { length conversion.old.collector.sets ≤ conversion.old.setup.window }
        ensures is_open { self.new.scanner.ended ≡ false }
        ensures pending { OnOk result (self.new.scanner.pending ≡ pending (self.old.scanner.pending ++ piece.now)) }
        ensures short { length self.new.scanner.pending ≤ 1029 }
        ensures takes { TakesFrames conversion.old number (payloads (final_frames (self.old.scanner.pending ++ piece.now))) result
            conversion.new self.old.newest self.new.newest
            (written (O.taken out.old) (L.taken log.old)) (written (O.taken out.new) (L.taken log.new)) }
        ensures failed { NamesFailedStreams result (O.failures out.old) (O.failures out.new) (L.failures log.old) (L.failures log.new) }
    {
        clock_laws();
        let mut at = 0;
        'frames: loop {
            let fed = self.scanner.feed(&piece[at..]);
            at += fed.used;
            let Answer::Found(payload) = fed.answer else {
                return Ok(());
            };
            let epoch = conversion.accept_frame(decoder, number, payload, out, log)?;
            self.newest = later_of(epoch, self.newest);
        }
    }

    /// Ends the stream, and takes the frames that are left in it.
    pub(crate) fn close<O: Sink, L: Sink>(
        &mut self,
        number: LinkNumber,
        conversion: &mut Conversion,
        decoder: &mut AnyDecoder,
        out: &mut O,
        log: &mut L,
    ) -> Result<(), ConvertFault>
        requires going { conversion.old.stopped ≡ false }
        requires few { length conversion.old.collector.sets ≤ conversion.old.setup.window }
        ensures ended { self.new.scanner.ended ≡ true }
        ensures short { length self.new.scanner.pending ≤ 1029 }
        ensures takes { TakesFrames conversion.old number (payloads (frames self.old.scanner.pending)) result
            conversion.new self.old.newest self.new.newest
            (written (O.taken out.old) (L.taken log.old)) (written (O.taken out.new) (L.taken log.new)) }
        ensures failed { NamesFailedStreams result (O.failures out.old) (O.failures out.new) (L.failures log.old) (L.failures log.new) }
    {
        clock_laws();
        'frames: while let Some(payload) = self.scanner.rest() {
            let epoch = conversion.accept_frame(decoder, number, payload, out, log)?;
            self.newest = later_of(epoch, self.newest);
        }
        Ok(())
    }
}
