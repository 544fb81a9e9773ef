//! What a conversion is set up with.

ghost use Rattle.std.specs.Prelude.{◌≡◌, ◌≤◌, ◌==◌, ◌&&◌, true, Some, IfSome, IfOk, IfErr, length, map, if◌then◌else◌};
ghost use Rattle.std.specs.List.{list_all};
ghost use Rattle.rtk_message.specs.declared.system.System.TheVariants.{Gps, Glonass, Sbas};
ghost use Rattle.rtk_message.specs.Accepted.{only_kind, no_kind};
ghost use Rattle.rtk_obs.specs.Dating.{IsReference};
ghost use Rattle.rtk_obs.specs.AnyCode.{code_of_gps};
ghost use Rattle.rtk_obs.specs.SatelliteIndex.{letter_of};
ghost use Rattle.rtk_rinex.specs.MixedHead.{IsMixedHead, letter};
ghost use Rattle.rtk_setup.specs.Setup.{SetupView, IsSetupView, AreSameChannels, entries_as, cells_by, is_of_gps, IsStation, IsWindow, IsLeapSeconds, all_of, with_kind, taken_by, takes_1004, channels_of, lists_system, mixed_head_of, mixed_setup_of, setup_of};

use crate::leap_seconds::LeapSeconds;
use crate::reference::Reference;
use crate::setup_fault::SetupFault;
use crate::station::Station;
use crate::system_kinds::SystemKinds;
use crate::window::Window;
use arrayvec::ArrayVec;
use rtk_message::{Accepted, MsmKind, MsmKinds, System};
use rtk_obs::{AnyCode, Channels, Code, GpsMs};
use rtk_rinex::{CreationTime, Head, Marker, MixedHead};
use std::marker::Model;

/// The station whose messages are converted, the reference near which their clocks are dated, what is known
/// of the file before its observations, how many epochs are kept open, and which messages are converted.
///
/// A system is converted if the head lists a code of it. The messages that are converted are 1005, 1006, of
/// each of these systems the MSM of one kind, 1004 with GPS or SBAS, and 1012 with GLONASS, if it is asked for.
/// Every other one is counted as `other`, the MSM of another kind too.
#[derive(Drop)]
pub struct Setup {
    station: Station,
    near: Reference,
    head: MixedHead,
    window: Window,
    kinds: SystemKinds,
    leap_seconds: Option<u8>,
    takes_1012: bool,
    // The messages that the head, the kinds and `takes_1012` come to.
    accepted: Accepted,
    // The channels that the head tells.
    channels: Channels,
}

// Clauses see what the setup is told. The last parts of the invariant say what is kept beside it.
impl Model for Setup {
    ghost use Rattle.std.specs.Prelude.{◌≡◌};
    ghost use Rattle.rtk_setup.specs.Setup.{SetupView, IsSetupView, AreSameChannels, taken_by, channels_of};

    ghost Value = { SetupView };

    ghost view = { λ s. record { station = s.station; near = s.near; head = s.head; window = s.window; kinds = s.kinds; leap_seconds = s.leap_seconds; takes_1012 = s.takes_1012 } };

    ghost invariant = { λ s. IsSetupView (record { station = s.station; near = s.near; head = s.head; window = s.window; kinds = s.kinds; leap_seconds = s.leap_seconds; takes_1012 = s.takes_1012 })
        × (s.accepted ≡ taken_by (record { station = s.station; near = s.near; head = s.head; window = s.window; kinds = s.kinds; leap_seconds = s.leap_seconds; takes_1012 = s.takes_1012 }))
        × AreSameChannels s.channels (channels_of s.head.glonass) };
}

/// Returns whether some of the codes is of a system.
pub(crate) fn lists_system(listed: &[AnyCode], system: System) -> bool
    ensures { result ≡ lists_system listed.now system }
{
    for code in listed {
        if code.system() == system {
            return true;
        }
    }
    false
}

// Returns the kinds of a system that are read, if some of the codes is of it.
fn kinds_taken(listed: &[AnyCode], system: System, kind: MsmKind) -> MsmKinds
    ensures { result ≡ (if lists_system listed.now system then only_kind kind else no_kind) }
{
    if lists_system(listed, system) {
        MsmKinds::only(kind)
    } else {
        MsmKinds::NONE
    }
}

// Returns whether 1012 is read, which is of GLONASS, if it is asked for.
fn reads_1012(listed: &[AnyCode], is_asked: bool) -> bool
    ensures { result ≡ (is_asked && lists_system listed.now Glonass) }
{
    is_asked && lists_system(listed, System::Glonass)
}

// Returns the messages that are read for these codes.
fn accepted_by(listed: &[AnyCode], kinds: SystemKinds, is_asked: bool) -> Accepted
    ensures { (s : SetupView) → s.head.listed ≡ listed.now → s.kinds ≡ kinds → s.takes_1012 ≡ is_asked → result ≡ taken_by s }
{
    Accepted {
        gps: kinds_taken(listed, System::Gps, kinds.gps),
        glonass: kinds_taken(listed, System::Glonass, kinds.glonass),
        galileo: kinds_taken(listed, System::Galileo, kinds.galileo),
        beidou: kinds_taken(listed, System::Beidou, kinds.beidou),
        qzss: kinds_taken(listed, System::Qzss, kinds.qzss),
        sbas: kinds_taken(listed, System::Sbas, kinds.sbas),
        navic: kinds_taken(listed, System::Navic, kinds.navic),
        obs1012: reads_1012(listed, is_asked),
    }
}

// Returns the channels that a head tells.
fn channels_of(head: &MixedHead) -> Channels
    ensures { AreSameChannels result (channels_of head.now.glonass) }
{
    match head.glonass() {
        Some(told) => told.channels(),
        None => Channels::new(),
    }
}

// Returns the codes of GPS as codes of any systems.
fn any_codes(codes: &[Code]) -> ArrayVec<AnyCode, 16>
    requires { length codes.now ≤ 16 }
    ensures { result.items ≡ map code_of_gps codes.now }
{
    let mut listed = ArrayVec::new();
    for code in codes {
        listed.push(AnyCode::of_gps(*code));
    }
    listed
}

// Returns whether all codes are of GPS.
fn are_of_gps(listed: &[AnyCode]) -> bool
    ensures { result ≡ list_all (λ c. letter c == letter_of Gps) listed.now }
{
    for code in listed {
        if code.system() != System::Gps {
            return false;
        }
    }
    true
}

// Returns the head of a file of GPS as one of a file of any systems.
fn mixed_head(head: &Head) -> MixedHead
    ensures { result ≡ mixed_head_of head.now }
{
    let (Ok(marker), Ok(made)) = (Marker::new(head.marker()), CreationTime::new(head.made())) else {
        unreachable!()
    };
    let listed = any_codes(head.codes());
    let Ok(mixed) = MixedHead::new(marker, listed.as_slice(), None, made) else {
        unreachable!()
    };
    mixed
}

impl Setup {
    ghost use Rattle.rtk_setup.specs.SetupFault.{IsSetupFault};

    /// Returns the setup of these parts if they are good, else the first cause why there is none.
    /// Its MSM is 1074.
    pub fn new(station: u16, near: GpsMs, head: Head, window: usize) -> Result<Setup, SetupFault>
        ensures setup { IfOk result (λ s. s ≡ setup_of station near head window) }
        ensures good { IfOk result IsSetupView }
        ensures fault { IfErr result (IsSetupFault (setup_of station near head window)) }
    {
        let station = Station::new(station)?;
        let near = Reference::new(near)?;
        let window = Window::new(window)?;
        Ok(Setup::from_parts(station, near, head, window))
    }

    /// Returns the setup of these parts. Its MSM is 1074.
    pub fn from_parts(station: Station, near: Reference, head: Head, window: Window) -> Setup
        ensures setup { result ≡ setup_of station near head window }
        ensures good { IsSetupView result }
    {
        Setup::mixed(station, near, mixed_head(&head), window)
    }

    /// Returns the setup of these parts, for a file of any systems. Its MSM of each system is MSM4, and 1012 is not
    /// asked for.
    ///
    /// The file does not tell the leap seconds of the head, but those at its first record.
    pub fn mixed(station: Station, near: Reference, head: MixedHead, window: Window) -> Setup
        ensures setup { result ≡ mixed_setup_of station near head window }
        ensures good { IsSetupView result }
    {
        let kinds = SystemKinds::all(MsmKind::Msm4);
        let accepted = accepted_by(head.codes(), kinds, false);
        let channels = channels_of(&head);
        Setup {
            station,
            near,
            head,
            window,
            kinds,
            leap_seconds: None,
            takes_1012: false,
            accepted,
            channels,
        }
    }

    // Returns this setup with other kinds.
    fn with_kinds(self, kinds: SystemKinds) -> Setup
        ensures { result ≡ record self { kinds = kinds } }
    {
        let accepted = accepted_by(self.head.codes(), kinds, self.takes_1012);
        Setup {
            kinds,
            accepted,
            ..self
        }
    }

    /// Returns this setup with another kind of MSM, of all systems.
    pub fn with_msm(self, msm: MsmKind) -> Setup
        ensures { result ≡ record self { kinds = all_of msm } }
    {
        self.with_kinds(SystemKinds::all(msm))
    }

    /// Returns this setup with another kind of MSM of a system.
    pub fn with_kind(self, system: System, msm: MsmKind) -> Setup
        ensures { result ≡ record self { kinds = with_kind self.kinds system msm } }
    {
        let kinds = self.kinds.with(system, msm);
        self.with_kinds(kinds)
    }

    /// Returns this setup with a number of leap seconds, by which clocks of GLONASS are dated in place of the
    /// table's, and which the file tells.
    pub fn with_leap_seconds(self, leap_seconds: LeapSeconds) -> Setup
        ensures { result ≡ record self { leap_seconds = Some leap_seconds } }
    {
        Setup {
            leap_seconds: Some(leap_seconds.number()),
            ..self
        }
    }

    /// Returns this setup with 1012 asked for. It is converted if a code of GLONASS is listed.
    ///
    /// A 1012 tells a time of day, and so does an MSM of GLONASS with DF416 7, which is refused without this call.
    /// Both are dated within half a day of the reference.
    pub fn with_1012(self) -> Setup
        ensures { result ≡ record self { takes_1012 = true } }
    {
        let accepted = accepted_by(self.head.codes(), self.kinds, true);
        Setup {
            takes_1012: true,
            accepted,
            ..self
        }
    }

    /// Returns this setup for a file with Doppler shifts, which are those of MSM5 and MSM7. It is a file of any systems,
    /// also if all its codes are of GPS.
    pub fn with_doppler(self) -> Setup
        ensures { result ≡ record self { head = record { marker = self.head.marker; listed = self.head.listed; glonass = self.head.glonass; made = self.head.made; doppler = true } } }
    {
        Setup {
            station: self.station,
            near: self.near,
            head: self.head.with_doppler(),
            window: self.window,
            kinds: self.kinds,
            leap_seconds: self.leap_seconds,
            takes_1012: self.takes_1012,
            accepted: self.accepted,
            channels: self.channels,
        }
    }

    /// Returns the station whose messages are converted (DF003).
    pub fn station(&self) -> u16
        ensures value { result ≡ self.now.station }
        ensures good { IsStation result }
    {
        self.station.number()
    }

    /// Returns the reference near which clocks are dated.
    pub fn near(&self) -> GpsMs
        ensures value { result ≡ self.now.near }
        ensures good { IsReference result }
    {
        self.near.moment()
    }

    /// Returns what is known of the file before its observations.
    pub fn head(&self) -> &MixedHead
        ensures value { result.now ≡ self.now.head }
        ensures good { IsMixedHead result.now }
    {
        &self.head
    }

    /// Returns how many epochs are kept open.
    pub fn window(&self) -> usize
        ensures value { result ≡ self.now.window }
        ensures good { IsWindow result }
    {
        self.window.epochs()
    }

    /// Returns the kind of MSM that is converted of each system.
    pub fn kinds(&self) -> SystemKinds
        ensures { result ≡ self.now.kinds }
    {
        self.kinds
    }

    /// Returns the leap seconds by which clocks of GLONASS are dated, if they are not those of the table.
    pub fn leap_seconds(&self) -> Option<u8>
        ensures value { result ≡ self.now.leap_seconds }
        ensures good { IfSome result IsLeapSeconds }
    {
        self.leap_seconds
    }

    /// Returns whether 1012 is asked for.
    pub fn takes_1012(&self) -> bool
        ensures { result ≡ self.now.takes_1012 }
    {
        self.takes_1012
    }

    /// Returns whether some listed code is of a system.
    pub fn lists(&self, system: System) -> bool
        ensures { result ≡ lists_system self.now.head.listed system }
    {
        lists_system(self.head.codes(), system)
    }

    /// Returns whether the file shows Doppler shifts.
    pub fn has_doppler(&self) -> bool
        ensures { result ≡ self.now.head.doppler }
    {
        self.head.has_doppler()
    }

    /// Returns whether all listed codes are of GPS, and the file shows no Doppler shifts.
    pub fn is_of_gps(&self) -> bool
        ensures { result ≡ is_of_gps self.now }
    {
        !self.head.has_doppler() && are_of_gps(self.head.codes())
    }

    /// Returns the messages that are read: those that are converted, and 1004.
    pub fn accepted(&self) -> Accepted
        ensures { result ≡ taken_by self.now }
    {
        self.accepted
    }

    /// Returns whether messages of GPS are converted.
    #[inline(always)]
    pub fn takes_gps(&self) -> bool
        ensures { result ≡ lists_system self.now.head.listed Gps }
    {
        self.accepted.gps.takes(self.kinds.gps)
    }

    /// Returns whether satellites of SBAS are converted, those of a 1004 too.
    pub fn takes_sbas(&self) -> bool
        ensures { result ≡ lists_system self.now.head.listed Sbas }
    {
        self.accepted.sbas.takes(self.kinds.sbas)
    }

    /// Returns whether 1004 is converted. Most setups list a code of GPS, which is asked first.
    #[inline(always)]
    pub fn takes_1004(&self) -> bool
        ensures { result ≡ takes_1004 self.now }
    {
        self.takes_gps() || self.takes_sbas()
    }

    /// Returns the channels by which phases of GLONASS are made.
    pub fn channels(&self) -> &Channels
        ensures cells { entries_as self.now.head.doppler (lists_system self.now.head.listed Sbas) result.now ≡ cells_by self.now }
        ensures slots { AreSameChannels result.now (channels_of self.now.head.glonass) }
    {
        &self.channels
    }
}
