//! A converter: it takes pieces of 1 to 16 links, in any order, and writes one file and a report.
//!
//! Frames are taken one by one, straight from the bytes of a scanner; no payload is copied.

ghost use Rattle.std.specs.Prelude.{◌≡◌, ◌<◌, ◌↔◌, [], ◌∷◌, ◌++◌, true, false, None, length, replicate, IsErrOf, IfOk, IfErr, IfSome, OnOk, Decides};
ghost use Rattle.rtk_frame.specs.ScannerView.{scanner_view};
ghost use Rattle.rtk_convert.specs.Converter.{IsLinkCount, IsNewConverter, RepresentsHistory, refusal, FeedsLink, EndsLink, LeavesConverter, EndsConverter};
ghost use Rattle.rtk_convert.specs.Steps.AllLinks.{ClosesLinks};
ghost use Rattle.rtk_convert.specs.History.{History, IsOpen, newest_on};
ghost use Rattle.rtk_convert.specs.Outcome.{NamesFailedStreams};
ghost use Rattle.rtk_convert.specs.Writing.{written};

use crate::conversion::Conversion;
use crate::fault::ConvertFault;
use crate::link_count::LinkCount;
use crate::link_number::LinkNumber;
use crate::link_state::LinkState;
use rtk_frame::{Scanner, Sink};
use rtk_message::AnyDecoder;
use rtk_obs::GpsMs;
use rtk_setup::{Counts, Setup};
use std::alloc::{AllocError, Global};
use std::marker::Model;

/// Converts what 1 to 16 links carry of one station to a file and a report.
///
/// Its memory is bounded, as `HoldsAtMost` says: of each link at most 1,029 bytes are pending,
/// and in all it holds at most as many open epochs as the setup says. A call that breaks off (V4, V5) stops
/// it: each later call answers V8.
#[derive(Drop)]
pub struct Converter {
    conversion: Conversion,
    decoder: Box<AnyDecoder>,
    links: Vec<LinkState>,
}

// Clauses see the conversion and the links, and bound what they hold. The decoder keeps the last message
// of each kind and does not grow. The first part of the invariant names every field, so nobody can add a
// field that holds bytes without a bound: the equation would then fail to check.
impl Model for Converter {
    ghost use Rattle.std.specs.Prelude.{◌≡◌};
    ghost use Rattle.rtk_convert.specs.Converter.{ConverterView, IsConverterView};

    ghost Value = { ConverterView };

    ghost view = { λ c. record { conversion = c.conversion; links = c.links.items } };

    ghost invariant = { λ c. (c ≡ record { conversion = c.conversion; decoder = c.decoder; links = c.links })
        × IsConverterView (record { conversion = c.conversion; links = c.links.items }) };
}

// Makes a decoder that has read nothing yet. It is large, so it lies on the heap. This function is alone
// in needing the stack for it, which is gone when it returns.
#[inline(never)]
fn new_decoder(alloc: Global) -> Result<Box<AnyDecoder>, AllocError> {
    Ok(Box::new(alloc, AnyDecoder::new())?)
}

// Adds a link that is open, and on which nothing was fed.
fn add_link(links: &mut Vec<LinkState>, scanner: Scanner) -> Result<(), AllocError>
    ensures { OnOk result (links.new.items ≡ links.old.items ++ record { scanner = scanner; newest = None } ∷ []) }
{
    links.push(LinkState {
        scanner,
        newest: None,
    })?;
    Ok(())
}

// Makes links that are open, and on which nothing was fed.
fn new_links(alloc: Global, count: LinkCount) -> Result<Vec<LinkState>, ConvertFault>
    ensures new { IfOk result (λ links. links.items ≡ replicate count (record { scanner = scanner_view [] false; newest = None })) }
    ensures fault { IfErr result (λ fault. fault ≡ ConvertFault.OutOfMemory) }
{
    let mut links = Vec::new(alloc);
    for _ in 0..count.links() {
        add_link(&mut links, Scanner::new(alloc)?)?;
    }
    Ok(links)
}

impl Converter {
    ghost use Rattle.std.specs.Prelude.{slice_get};
    ghost use Rattle.rtk_convert.specs.Converter.{link_refusal};

    /// Makes a converter whose links are open and empty. Links are counted from 0.
    pub fn new(alloc: Global, setup: Setup, links: usize) -> Result<Converter, ConvertFault>
        ensures ok { IfOk result (IsNewConverter setup links) }
        ensures link_count { IsErrOf result ConvertFault.Setup ↔ ¬ (IsLinkCount links) }
        // V4 comes only if memory is refused: tests/system/calls, rows `Converter::new of ..`.
        ensures fault { IfErr result (λ fault. IsLinkCount links → fault ≡ ConvertFault.OutOfMemory) }
    {
        let count = LinkCount::new(links)?;
        let conversion = Conversion::new(alloc, setup)?;
        let decoder = new_decoder(alloc)?;
        let links = new_links(alloc, count)?;
        Ok(Converter {
            conversion,
            decoder,
            links,
        })
    }

    /// Returns how many links there are.
    pub fn links(&self) -> usize
        ensures value { result ≡ length self.now.links }
        ensures of_history { (h : History) → RepresentsHistory self.now h → result ≡ length h.links }
    {
        self.links.len()
    }

    /// Returns whether the link exists and is open.
    pub fn is_open(&self, link: usize) -> bool
        ensures of_history { (h : History) → RepresentsHistory self.now h → Decides result (IsOpen h link) }
        // Whatever came before, also after a call that broke off: no call is refused for its link.
        ensures unrefused { Decides result (link_refusal (slice_get self.now.links link) ≡ None) }
    {
        match self.links.get(link) {
            Some(open) => !open.scanner.ended(),
            None => false,
        }
    }

    /// Returns the greatest observation epoch that came on the link, late messages included.
    pub fn newest(&self, link: usize) -> Option<GpsMs>
        requires { link < length self.now.links }
        ensures { (h : History) → RepresentsHistory self.now h → result ≡ newest_on link h.found }
    {
        self.links[link].newest
    }

    // Returns why a call on the link is refused at once. That the conversion has stopped is asked
    // here, since it comes before the faults of a link, and a refused call must not change the
    // link.
    fn refusal(&self, link: usize) -> Option<ConvertFault>
        ensures { result ≡ refusal self.now link }
    {
        if self.conversion.is_stopped() {
            return Some(ConvertFault::Stopped);
        }
        let Some(open) = self.links.get(link) else {
            return Some(ConvertFault::NoLink);
        };
        if open.scanner.ended() {
            return Some(ConvertFault::LinkClosed);
        }
        None
    }

    /// Takes the next bytes of a link. The frames that they complete arrive.
    pub fn feed<O: Sink, L: Sink>(
        &mut self,
        link: usize,
        piece: &[u8],
        out: &mut O,
        log: &mut L,
    ) -> Result<(), ConvertFault>
        // Done: what the links come to, and what is written. Broken off: what is out.
        ensures feeds { FeedsLink self.old link piece.now result self.new
            (written (O.taken out.old) (L.taken log.old)) (written (O.taken out.new) (L.taken log.new)) }

        // Refused: nothing is changed.
        ensures refused { IfSome (refusal self.old link) (λ fault. IsErrOf result fault
            × (self.new ≡ self.old) × (out.new ≡ out.old) × (log.new ≡ log.old)) }

        // Whatever the answer. V4 comes only if memory is refused: tests/system/calls, rows `feed ..`.
        ensures leaves { LeavesConverter self.old link result self.new }
        ensures failed { NamesFailedStreams result (O.failures out.old) (O.failures out.new) (L.failures log.old) (L.failures log.new) }
    {
        if let Some(fault) = self.refusal(link) {
            return Err(fault);
        }
        self.links[link].feed(
            LinkNumber::new(link),
            &mut self.conversion,
            &mut self.decoder,
            piece,
            out,
            log,
        )
    }

    /// Closes a link. No more bytes will come, and the frames that are left in it arrive.
    pub fn close<O: Sink, L: Sink>(
        &mut self,
        link: usize,
        out: &mut O,
        log: &mut L,
    ) -> Result<(), ConvertFault>
        // Done: what the links come to, and what is written. Broken off: what is out.
        ensures ends { EndsLink self.old link result self.new
            (written (O.taken out.old) (L.taken log.old)) (written (O.taken out.new) (L.taken log.new)) }

        // Refused: nothing is changed.
        ensures refused { IfSome (refusal self.old link) (λ fault. IsErrOf result fault
            × (self.new ≡ self.old) × (out.new ≡ out.old) × (log.new ≡ log.old)) }

        // Whatever the answer. V4 comes only if memory is refused: tests/system/calls, rows `close of ..`.
        ensures leaves { LeavesConverter self.old link result self.new }
        ensures failed { NamesFailedStreams result (O.failures out.old) (O.failures out.new) (L.failures log.old) (L.failures log.new) }
    {
        if let Some(fault) = self.refusal(link) {
            return Err(fault);
        }
        self.links[link].close(
            LinkNumber::new(link),
            &mut self.conversion,
            &mut self.decoder,
            out,
            log,
        )
    }

    // Closes the links that are open, the lower number first.
    fn close_all<O: Sink, L: Sink>(&mut self, out: &mut O, log: &mut L) -> Result<(), ConvertFault>
        requires going { self.old.conversion.stopped ≡ false }
        ensures closes { ClosesLinks self.old result self.new
            (written (O.taken out.old) (L.taken log.old)) (written (O.taken out.new) (L.taken log.new)) }
        ensures failed { NamesFailedStreams result (O.failures out.old) (O.failures out.new) (L.failures log.old) (L.failures log.new) }
    {
        for link in 0..self.links.len() {
            if self.refusal(link).is_some() {
                continue;
            }
            self.close(link, out, log)?;
        }
        Ok(())
    }

    /// Closes the links that are open, the lower number first, and ends the file and the report.
    pub fn finish<O: Sink, L: Sink>(self, out: &mut O, log: &mut L) -> Result<Counts, ConvertFault>
        // Done: the file and the report are whole. Broken off: what is out.
        // V4 comes only if memory is refused: tests/system/calls, rows `finish ..`.
        ensures ends { EndsConverter self result
            (written (O.taken out.old) (L.taken log.old)) (written (O.taken out.new) (L.taken log.new)) }
        ensures still { self.conversion.stopped ≡ true → (out.new ≡ out.old) × (log.new ≡ log.old) }
        ensures failed { NamesFailedStreams result (O.failures out.old) (O.failures out.new) (L.failures log.old) (L.failures log.new) }
    {
        if self.conversion.is_stopped() {
            return Err(ConvertFault::Stopped);
        }
        let mut closing = self;
        closing.close_all(out, log)?;
        closing.conversion.finish(out, log)
    }
}
