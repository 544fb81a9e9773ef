//! Laws over the definitions: times, codes, rounding, cells, places, last phases; and laws of `==`,
//! which says whether all fields of two values, or their variants, are the same.
//!
//! Each function here does nothing. Its contract is the law, and a caller that calls it may cite
//! it; proofs of other crates cite the same facts from `proofs/PublicLaws.antt`.

ghost use Rattle.std.specs.Prelude.{◌≡◌, ◌≢◌, ◌↔◌, false, ℕ, ℤ, ◌+◌, ◌<◌, ◌≤◌, Bool, List, map, Option, Some, None, MatchOption, IsTrue};
ghost use Rattle.std.specs.Ordering.{nat_cmp, partial_lt, partial_le};
ghost use Rattle.std.specs.List.{All, AllPairs};
ghost use Rattle.rtk_message.specs.declared.any_message.AnyMessage.{AnyMessage};
ghost use Rattle.rtk_message.specs.declared.obs1004.Satellite.{Satellite};
ghost use Rattle.rtk_message.specs.declared.obs1004.Obs1004.{Obs1004};
ghost use Rattle.rtk_message.specs.declared.obs1012.GlonassSatellite.{GlonassSatellite};
ghost use Rattle.rtk_message.specs.declared.obs1012.Obs1012.{Obs1012};
ghost use Rattle.rtk_message.specs.Obs1012.{IsValid as IsValid1012, clock_of};
ghost use Rattle.rtk_message.specs.declared.msm1074.Msm1074.{Msm1074};
ghost use Rattle.rtk_message.specs.declared.msm.Msm.{Msm};
ghost use Rattle.rtk_message.specs.declared.system.System.{System};
ghost use Rattle.rtk_message.specs.declared.system.System.TheVariants.{Gps, Glonass};
ghost use Rattle.rtk_message.specs.AnyDecoded.{IsValid};
ghost use Rattle.rtk_message.specs.Systems.{tells_time};
ghost use Rattle.rtk_message.specs.Obs1004.{IsValid as IsValid1004};
ghost use Rattle.rtk_message.specs.Msm1074.{IsValid as IsValid1074};
ghost use Rattle.rtk_message.specs.MsmForm.{IsValid as IsValidMsm};
ghost use Rattle.rtk_obs.specs.declared.time.TheConstants.{LAST_MS};
ghost use Rattle.rtk_obs.specs.declared.time.Civil.{Civil};
ghost use Rattle.rtk_obs.specs.declared.code.Band.{Band};
ghost use Rattle.rtk_obs.specs.declared.code.Code.{Code};
ghost use Rattle.rtk_obs.specs.declared.cell.Cell.{Cell};
ghost use Rattle.rtk_obs.specs.declared.cell.CellEntry.{CellEntry};
ghost use Rattle.rtk_obs.specs.declared.cell.CellSource.{CellSource};
ghost use Rattle.rtk_obs.specs.declared.position.Position.{Position};
ghost use Rattle.rtk_obs.specs.declared.track.Track.{Track};
ghost use Rattle.rtk_obs.specs.declared.track.Digits.{Digits};
ghost use Rattle.rtk_obs.specs.Calendar.{ReadsAs};
ghost use Rattle.rtk_obs.specs.Reading.{IsMoment, reading_of};
ghost use Rattle.rtk_obs.specs.Dating.{IsDated};
ghost use Rattle.rtk_obs.specs.declared.glonass_time.GlonassTime.{GlonassTime};
ghost use Rattle.rtk_obs.specs.LeapSeconds.{IsLeapSecondsAt};
ghost use Rattle.rtk_obs.specs.GlonassTime.{glonass_time_of, glonass_tow, glonass_tod, IsDatedInDay, IsNumberOf};
ghost use Rattle.rtk_obs.specs.Carriers.{AreChannels};
ghost use Rattle.rtk_obs.specs.Clocks.{IsClock, IsClockMoment};
ghost use Rattle.rtk_obs.specs.Rounding.{IsRounded, rounded};
ghost use Rattle.rtk_obs.specs.Code.{name_of, place_of};
ghost use Rattle.rtk_obs.specs.declared.any_code.AnyCode.{AnyCode};
ghost use Rattle.rtk_obs.specs.AnyCode as any;
ghost use Rattle.rtk_obs.specs.SignalCells.{signal_entries, AreDifferentEntries, signal_of, entries_of, IsSignalInRange, EntriesAreOfOneKind};
ghost use Rattle.rtk_obs.specs.SatelliteIndex.{IsSatelliteIndex, IsOfSystem, index_in, system_at, bit_at, index_name};
ghost use Rattle.rtk_obs.specs.PositionFields.{HasFields};
ghost use Rattle.rtk_obs.specs.Cell.{IsSatellite, IsInRange, AreDistinct};
ghost use Rattle.rtk_obs.specs.LegacyCells.{cells_of_1004};
ghost use Rattle.rtk_obs.specs.SbasCells.{is_sbas_number, signals_of_1004, entries_with_sbas};
ghost use Rattle.rtk_obs.specs.Doppler.{doppler_entries, entries_with_doppler, without_doppler};
ghost use Rattle.rtk_obs.specs.declared.signal_cells.SignalEntry.{SignalEntry};
ghost use Rattle.rtk_obs.specs.GlonassCells.{glonass_channel, normal_satellite, entries_of_1012};
ghost use Rattle.rtk_obs.specs.MsmCells.{cells_of_1074, cells_of_msm};
ghost use Rattle.rtk_obs.specs.MessageCells.{cells_of, AreOfOneKind};
ghost use Rattle.rtk_obs.specs.Tracks.{place_of_signal};
ghost use Rattle.rtk_obs.specs.TracksLaws.{LastIsGreatest, LaterThanSteps, LaterAfterStep, AllLaterAfterStep};

use crate::any_code::AnyCode;
use crate::cell::{Cell, CellEntry, CellSource};
use crate::code::{Band, Code};
use crate::position::Position;
use crate::satellite_index::SatelliteIndex;
use crate::time::{Civil, GpsMs};
use crate::track::{Digits, Track};

/// Moments compare as their numbers of milliseconds do.
pub fn moment_laws()
    ensures equality { (s t : ℕ) → IsTrue (⟦<GpsMs as PartialEq>⟧.eq s t) ↔ (s ≡ t) }
    ensures less { (s t : ℕ) → IsTrue (partial_lt ⟦<GpsMs as PartialOrd>⟧.partial_cmp s t) ↔ (s < t) }
    ensures at_most { (s t : ℕ) → IsTrue (partial_le ⟦<GpsMs as PartialOrd>⟧.partial_cmp s t) ↔ (s ≤ t) }
    ensures cmp { (s t : ℕ) → ⟦<GpsMs as Ord>⟧.cmp s t ≡ nat_cmp s t }
    ensures partial_cmp { (s t : ℕ) → ⟦<GpsMs as PartialOrd>⟧.partial_cmp s t ≡ Some (nat_cmp s t) }
{}

/// A reading belongs to one moment, and `of_civil` answers this moment to it. `==` on readings is
/// equality of all their fields.
pub fn civil_laws()
    ensures one_moment { (s t : ℕ) (c : Civil) → ReadsAs s c → ReadsAs t c → s ≡ t }
    ensures all_moments { (t : ℕ) (c : Civil) → ReadsAs t c → c.year ≤ 2100 → t ≤ LAST_MS }
    ensures reads_back { (t : ℕ) (c : Civil) (answer : Option ℕ) → t ≤ LAST_MS → ReadsAs t c
        → MatchOption answer ((s : ℕ) → s ≤ LAST_MS → ¬ (ReadsAs s c)) (λ s. ReadsAs s c) → answer ≡ Some t }
    ensures equality { (a b : Civil) → IsTrue (⟦<Civil as PartialEq>⟧.eq a b) ↔ (a ≡ b) }
{}

/// A moment has one reading, which `reading_of` gives.
pub fn one_reading()
    ensures one { (t : ℕ) (c : Civil) → ReadsAs t c → c ≡ reading_of t }
    ensures reads { (t : ℕ) → IsMoment t → ReadsAs t (reading_of t) }
{}

/// A time of week has one date near a reference.
pub fn date_is_unique()
    ensures { (near tow s t : ℕ) → IsDated near tow s → IsDated near tow t → s ≡ t }
{}

/// The rounded value is the one whole number that is nearest, and at a tie further from 0.
pub fn rounded_is_unique()
    ensures { (n : ℤ) (d : ℕ) (v : ℤ) → 0 < d → IsRounded n d v ↔ (v ≡ rounded n d) }
{}

/// No two codes have one name, and what `Code::from_name` answers to a code's `name` is the code.
/// `==` says whether two codes are the same, and whether two bands are.
pub fn code_laws()
    ensures names { (c d : Code) → name_of c ≡ name_of d → c ≡ d }
    ensures reads_back { (c : Code) (answer : Option Code)
        → MatchOption answer ((d : Code) → name_of c ≢ name_of d) (λ d. name_of c ≡ name_of d) → answer ≡ Some c }
    ensures equality { (c d : Code) → IsTrue (⟦<Code as PartialEq>⟧.eq c d) ↔ (c ≡ d) }
    ensures bands { (a b : Band) → IsTrue (⟦<Band as PartialEq>⟧.eq a b) ↔ (a ≡ b) }
{}

/// No two codes of any systems have one text, and what `AnyCode::from_text` answers to a code's `text`
/// is the code. A system and a place below 16 belong to one code, and so does a number. `==` says
/// whether two codes are the same.
pub fn any_code_laws()
    ensures texts { (c d : AnyCode) → any.text_of c ≡ any.text_of d → c ≡ d }
    ensures reads_back { (c : AnyCode) (answer : Option AnyCode)
        → MatchOption answer ((d : AnyCode) → any.text_of c ≢ any.text_of d) (λ d. any.text_of c ≡ any.text_of d)
        → answer ≡ Some c }
    ensures bound { (c : AnyCode) → any.place_of c < 16 }
    ensures places { (c d : AnyCode) → any.system_of c ≡ any.system_of d → any.place_of c ≡ any.place_of d → c ≡ d }
    ensures numbers { (c d : AnyCode) → any.number_of c ≡ any.number_of d → c ≡ d }
    ensures equality { (c d : AnyCode) → IsTrue (⟦<AnyCode as PartialEq>⟧.eq c d) ↔ (c ≡ d) }
{}

/// `==` on cells is equality of all their fields, also with their satellites and codes; and `==`
/// says whether two cells came in the same kind of message.
pub fn cell_laws()
    ensures equality { (a b : Cell) → IsTrue (⟦<Cell as PartialEq>⟧.eq a b) ↔ (a ≡ b) }
    ensures entries { (a b : CellEntry) → IsTrue (⟦<CellEntry as PartialEq>⟧.eq a b) ↔ (a ≡ b) }
    ensures sources { (a b : CellSource) → IsTrue (⟦<CellSource as PartialEq>⟧.eq a b) ↔ (a ≡ b) }
{}

/// `==` on positions is equality of the three coordinates and of the height.
pub fn position_laws()
    ensures { (p q : Position) → IsTrue (⟦<Position as PartialEq>⟧.eq p q) ↔ HasFields q.x q.y q.z q.height p }
{}

/// `==` on last phases, and on the digits of cells, is equality of all their fields.
pub fn track_laws()
    ensures equality { (a b : Track) → IsTrue (⟦<Track as PartialEq>⟧.eq a b) ↔ (a ≡ b) }
    ensures digits { (a b : Digits) → IsTrue (⟦<Digits as PartialEq>⟧.eq a b) ↔ (a ≡ b) }
{}

/// No two cells of a message are of one satellite and code: of any valid message, and also of a 1004
/// that is not valid.
pub fn cells_are_distinct()
    ensures each { (m : AnyMessage) → IsValid m → AreDistinct (cells_of m) }
    ensures legacy { (satellites : List Satellite) → AreDistinct (cells_of_1004 satellites) }
    ensures msm { (m : Msm1074) → IsValid1074 m → AreDistinct (cells_of_1074 m) }
    ensures wide { (m : Msm) → IsValidMsm m → AreDistinct (cells_of_msm m) }
{}

/// The cells of a valid message are of satellites from 1 to 32, and a cell with a strength has one
/// that a message can give. The cells of any message are of such satellites, and of one kind.
pub fn cells_are_in_range()
    ensures each { (m : AnyMessage) → IsValid m → All IsInRange (cells_of m) }
    ensures satellites { (m : AnyMessage) → All (λ e. IsSatellite e.satellite) (cells_of m) }
    ensures kind { (m : AnyMessage) → AreOfOneKind (cells_of m) }
    ensures legacy { (m : Obs1004) → IsValid1004 m → All IsInRange (cells_of_1004 m.satellites) }
    ensures msm { (m : Msm1074) → IsValid1074 m → All IsInRange (cells_of_1074 m) }
    ensures wide { (m : Msm) → IsValidMsm m → All IsInRange (cells_of_msm m) }
{}

/// A place among all signals belongs to one satellite and one code. The places of codes are below
/// 16, and the places of signals below 512.
pub fn places_are_distinct()
    ensures code_bound { (c : Code) → place_of c < 16 }
    ensures signal_bound { (satellite : ℕ) (c : Code) → IsSatellite satellite → place_of_signal satellite c < 512 }
    ensures distinct { (a b : ℕ) (c d : Code) → IsSatellite a → IsSatellite b → place_of_signal a c ≡ place_of_signal b d
        → (a ≡ b) × (c ≡ d) }
{}

/// If phases come at rising epochs, the last one is the phase at the greatest epoch. An epoch after
/// each earlier phase of a satellite and code is one that a step may have, and so is an epoch after
/// a step.
pub fn tracks_laws()
    ensures greatest { LastIsGreatest }
    ensures later { LaterThanSteps }
    ensures after { LaterAfterStep }
    ensures all { AllLaterAfterStep }
{}

/// The index of a mask bit belongs to this bit and system alone, and each index has such a bit. The
/// ranges of the systems cover the index without overlap. No two satellites have one name, and what
/// `satellite_named` answers to a satellite's name is the satellite. Satellites compare as their
/// numbers do.
pub fn satellite_laws()
    ensures index_back { (system : System) (bit i : ℕ) → index_in system bit ≡ Some i
        → IsSatelliteIndex i × ((system_at i ≡ system) × (bit_at i ≡ bit)) }
    ensures bit_back { (i : ℕ) → IsSatelliteIndex i → index_in (system_at i) (bit_at i) ≡ Some i }
    ensures cover { (i : ℕ) → IsSatelliteIndex i → IsOfSystem (system_at i) i }
    ensures apart { (system : System) (i : ℕ) → IsOfSystem system i → IsSatelliteIndex i × (system_at i ≡ system) }
    ensures names { (i j : ℕ) → IsSatelliteIndex i → IsSatelliteIndex j → index_name i ≡ index_name j → i ≡ j }
    ensures reads_back { (i : ℕ) (answer : Option ℕ) → IsSatelliteIndex i
        → MatchOption answer ((j : ℕ) → IsSatelliteIndex j → index_name i ≢ index_name j) (λ j. IsSatelliteIndex j × (index_name i ≡ index_name j))
        → answer ≡ Some i }
    ensures equality { (i j : ℕ) → IsTrue (⟦<SatelliteIndex as PartialEq>⟧.eq i j) ↔ (i ≡ j) }
    ensures less { (i j : ℕ) → IsTrue (partial_lt ⟦<SatelliteIndex as PartialOrd>⟧.partial_cmp i j) ↔ (i < j) }
    ensures at_most { (i j : ℕ) → IsTrue (partial_le ⟦<SatelliteIndex as PartialOrd>⟧.partial_cmp i j) ↔ (i ≤ j) }
    ensures cmp { (i j : ℕ) → ⟦<SatelliteIndex as Ord>⟧.cmp i j ≡ nat_cmp i j }
{}

/// A moment has one number of leap seconds, and so has a time of GLONASS near a reference. If no number is
/// given, both are the same, unless half a week after the reference is near, or half a day if the day of the
/// time is not known.
pub fn leap_laws()
    ensures moment { (t m n : ℕ) → IsLeapSecondsAt t m → IsLeapSecondsAt t n → m ≡ n }
    ensures clock { (near : ℕ) (time : GlonassTime) (given : Option ℕ) (m n : ℕ)
        → IsNumberOf near time given m → IsNumberOf near time given n → m ≡ n }
    ensures at_moment { (near day ms n t : ℕ) → IsNumberOf near (record { day = Some day; time_of_day_ms = ms }) None n
        → IsDated near (glonass_tow day ms n) t → t + 18_000 < near + 302_400_000 → IsLeapSecondsAt t n }
    ensures at_time_of_day { (near ms n t : ℕ) → IsNumberOf near (record { day = None; time_of_day_ms = ms }) None n
        → IsDatedInDay near (glonass_tod ms n) t → t + 18_000 < near + 43_200_000 → IsLeapSecondsAt t n }
{}

/// A clock has one moment near a reference, and the clock of a valid message tells a time. That of a 1012 tells
/// the time of day of the message and no day.
pub fn clock_laws()
    ensures one_moment { (system : System) (near clock : ℕ) (given : Option ℕ) (s t : ℕ)
        → IsClockMoment system near clock given s → IsClockMoment system near clock given t → s ≡ t }
    ensures time { (any_day : Bool) (system : System) (clock : ℕ) → IsTrue (tells_time any_day system clock) → IsClock system clock }
    ensures legacy { (m : Obs1012) → IsValid1012 m → IsClock Glonass (clock_of m) }
    ensures no_day { (m : Obs1012) → IsValid1012 m
        → glonass_time_of (clock_of m) ≡ record { day = None; time_of_day_ms = m.time_of_day_ms } }
{}

/// A time of day has one date near a reference.
pub fn date_in_day_is_unique()
    ensures { (near time_of_day s t : ℕ) → IsDatedInDay near time_of_day s → IsDatedInDay near time_of_day t → s ≡ t }
{}

/// A place among the signals of all systems belongs to one satellite and one code of its system, and is
/// below 3,536. The code of each entry of a message is one of the system of its satellite, and no two
/// entries are of one satellite and code: of a valid MSM, and also of a 1012 that is not valid.
pub fn signal_laws()
    ensures bound { (satellite : ℕ) (c : AnyCode) → any.IsSignal satellite c → any.signal_place satellite c < 3536 }
    ensures distinct { (a b : ℕ) (c d : AnyCode) → any.IsSignal a c → any.IsSignal b d
        → any.signal_place a c ≡ any.signal_place b d → (a ≡ b) × (c ≡ d) }
    ensures entries { (channels : List (Option ℤ)) (m : Msm)
        → All (λ e. any.IsSignal e.satellite e.code) (signal_entries channels m) }
    ensures differ { (channels : List (Option ℤ)) (m : Msm) → IsValidMsm m
        → AllPairs AreDifferentEntries (signal_entries channels m) }
    ensures legacy { (channels : List (Option ℤ)) (satellites : List GlonassSatellite)
        → AllPairs AreDifferentEntries (entries_of_1012 channels satellites) }
{}

/// Each entry of a message is of a code of the system of its satellite, and all came in one kind of
/// message. If the message is valid, an entry with a strength has one that messages give, and no two
/// entries are of one satellite and code. Those of an MSM of GPS are its cells, whatever the channels are.
/// The number of a code of GPS among all codes is its place.
pub fn entry_laws()
    ensures codes { (channels : List (Option ℤ)) (m : AnyMessage) → All (λ e. any.IsSignal e.satellite e.code) (entries_of channels m) }
    ensures range { (channels : List (Option ℤ)) (m : AnyMessage) → IsValid m → All IsSignalInRange (entries_of channels m) }
    ensures differ { (channels : List (Option ℤ)) (m : AnyMessage) → IsValid m → AllPairs AreDifferentEntries (entries_of channels m) }
    ensures kind { (channels : List (Option ℤ)) (m : AnyMessage) → EntriesAreOfOneKind (entries_of channels m) }
    ensures gps { (channels : List (Option ℤ)) (m : Msm) → m.system ≡ Gps → signal_entries channels m ≡ map signal_of (cells_of_msm m) }
    ensures numbers { (c : Code) → any.number_of (any.code_of_gps c) ≡ place_of c }
{}

/// The field of a satellite of a 1012 (DF040) has a normal form by the channels of a setup. It may be taken twice,
/// because a contradiction has a mark of its own. The satellites that have no phases are those with a mark, 30 or 31,
/// and the cells of a 1012 are those of its normal form.
pub fn normal_field_laws()
    ensures twice { (channels : List (Option ℤ)) → AreChannels channels → (s : GlonassSatellite)
        → normal_satellite channels (normal_satellite channels s) ≡ normal_satellite channels s }
    ensures marks { (channels : List (Option ℤ)) → AreChannels channels → (s : GlonassSatellite)
        → (glonass_channel channels s ≡ None) ↔ (30 ≤ (normal_satellite channels s).channel) }
    ensures cells { (channels : List (Option ℤ)) → AreChannels channels → (satellites : List GlonassSatellite)
        → entries_of_1012 channels (map (normal_satellite channels) satellites) ≡ entries_of_1012 channels satellites }
{}

/// What `entry_laws` says of the entries of a message holds also of those with SBAS of a 1004. Those of a 1004
/// that has no satellite of SBAS are its cells.
pub fn sbas_laws()
    ensures codes { (channels : List (Option ℤ)) (m : AnyMessage) → All (λ e. any.IsSignal e.satellite e.code) (entries_with_sbas channels m) }
    ensures range { (channels : List (Option ℤ)) (m : AnyMessage) → IsValid m → All IsSignalInRange (entries_with_sbas channels m) }
    ensures differ { (channels : List (Option ℤ)) (m : AnyMessage) → IsValid m → AllPairs AreDifferentEntries (entries_with_sbas channels m) }
    ensures kind { (channels : List (Option ℤ)) (m : AnyMessage) → EntriesAreOfOneKind (entries_with_sbas channels m) }
    ensures plain { (satellites : List Satellite) → All (λ s. is_sbas_number s.satellite ≡ false) satellites
        → signals_of_1004 satellites ≡ map signal_of (cells_of_1004 satellites) }
{}

/// What `entry_laws` says of the entries of a message holds also of those with Doppler shifts, if it holds of the entries
/// of the messages that have none. Those of an MSM are its entries, but for the shifts.
pub fn doppler_laws()
    ensures codes { (plain : AnyMessage → List SignalEntry) (channels : List (Option ℤ)) (m : AnyMessage)
        → All (λ e. any.IsSignal e.satellite e.code) (plain m) → All (λ e. any.IsSignal e.satellite e.code) (entries_with_doppler plain channels m) }
    ensures range { (plain : AnyMessage → List SignalEntry) (channels : List (Option ℤ)) (m : AnyMessage) → IsValid m
        → All IsSignalInRange (plain m) → All IsSignalInRange (entries_with_doppler plain channels m) }
    ensures differ { (plain : AnyMessage → List SignalEntry) (channels : List (Option ℤ)) (m : AnyMessage) → IsValid m
        → AllPairs AreDifferentEntries (plain m) → AllPairs AreDifferentEntries (entries_with_doppler plain channels m) }
    ensures kind { (plain : AnyMessage → List SignalEntry) (channels : List (Option ℤ)) (m : AnyMessage)
        → EntriesAreOfOneKind (plain m) → EntriesAreOfOneKind (entries_with_doppler plain channels m) }
    ensures plain { (channels : List (Option ℤ)) (m : Msm) → signal_entries channels m ≡ map without_doppler (doppler_entries channels m) }
{}
