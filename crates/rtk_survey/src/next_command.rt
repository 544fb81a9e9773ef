//! What the command of a station takes of other systems than GPS, and its options.
//!
//! If memory is refused, a first part of what is put may stand there.

ghost use Rattle.std.specs.Prelude.{◌≡◌, ◌<◌, ◌==◌, ◌++◌, ◌&&◌, ◌||◌, not, false, get_or, IfOk, IfSome, OnOk};
ghost use Rattle.std.specs.Option.{option_copied};
ghost use Rattle.rtk_message.specs.declared.system.System.TheVariants.{Sbas};
ghost use Rattle.rtk_obs.specs.AnyCode.{number_of};
ghost use Rattle.rtk_obs.specs.declared.any_code.AnyCode.{AnyCode};
ghost use Rattle.rtk_survey.specs.BitMarks.{is_marked_in};
ghost use Rattle.rtk_survey.specs.Chains.{no_clocks, clocks_at};
ghost use Rattle.rtk_survey.specs.NextCommand as spec;
ghost use Rattle.rtk_survey.specs.Proposal.{better_of};
ghost use Rattle.rtk_survey.specs.Steps.OtherSystems.{code_in_part, codes_held_by, slot_in_part, slot_held, slots_held, fields_held, legacy_held, glonass_held, taken_held, clocked_held};
ghost use Rattle.rtk_survey.specs.Steps.Tables.{system_epochs_held};
ghost use Rattle.rtk_survey.specs.SummaryText.{msm_option};
ghost use Rattle.rtk_survey.specs.WrongClocks.{is_system_wrong};

use crate::channel_lines::put_told_channel;
use crate::channels::{CHANNELS, FIELDS, count_of_field};
use crate::clock_chains::{ClockOffsets, ClockSurvey};
use crate::date_message::UtcDate;
use crate::station::StationSurvey;
use crate::system_msm::{SystemMsm, epochs_numbered};
use crate::system_signals::AnyCodeMarks;
use crate::systems_sent::SystemsSent;
use crate::telling::moment_of;
use crate::wrong_clocks::is_system_wrong;
use rtk_message::{MsmKind, MsmType, System};
use rtk_obs::{GpsMs, WEEK_MS, letter_of};
use std::alloc::{AllocError, Global};

/// The slots of GLONASS are 1 to 27.
const SLOTS_END: u8 = 28;

/// Half a day but for a minute, which is left for 1012 beside the epochs.
const ALMOST_HALF_DAY_MS: u64 = 43_140_000;

/// The satellites of GPS stand before that of slot 1.
const BEFORE_SLOTS: usize = 32;

// ---- the MSM of a system

fn epochs_by(station: &StationSurvey, system: System, kind: MsmKind) -> u64
    ensures { result ≡ spec.epochs_by (system_epochs_held station.now) system kind }
{
    let msm = MsmType { system, kind };
    epochs_numbered(&station.system_msm, msm.number())
}

fn better_of(station: &StationSurvey, system: System, lesser: MsmKind, greater: MsmKind) -> MsmKind
    ensures { result ≡ better_of (spec.epochs_by (system_epochs_held station.now) system) lesser greater }
{
    let count = epochs_by(station, system, greater);
    if count == 0 || count < epochs_by(station, system, lesser) {
        lesser
    } else {
        greater
    }
}

fn kind_by(station: &StationSurvey, system: System) -> MsmKind
    ensures { result ≡ spec.kind_by (system_epochs_held station.now) system }
{
    let first = better_of(station, system, MsmKind::Msm4, MsmKind::Msm5);
    let second = better_of(station, system, first, MsmKind::Msm6);
    better_of(station, system, second, MsmKind::Msm7)
}

fn number_by(station: &StationSurvey, system: System) -> u16
    ensures { result ≡ spec.number_by (system_epochs_held station.now) system }
{
    let kind = kind_by(station, system);
    let msm = MsmType { system, kind };
    msm.number()
}

// ---- the systems with clocks

// Has an MSM of SBAS an epoch with a value?
fn sends_sbas_msm(station: &StationSurvey) -> bool
    ensures { result ≡ spec.sends_msm (system_epochs_held station.now) Sbas }
{
    let kind = kind_by(station, System::Sbas);
    0 < epochs_by(station, System::Sbas, kind)
}

/// The systems of a station whose messages have clocks.
pub(crate) fn systems_clocked(station: &StationSurvey) -> SystemsSent
    ensures { result ≡ clocked_held station.now }
{
    let mut sent = SystemsSent::of(&station.signals.codes.marks, &station.system_signals.codes);
    sent.sbas = sends_sbas_msm(station);
    sent
}

// ---- 1012

fn is_time_near(near: GpsMs, tow: u32) -> bool
    ensures { result ≡ spec.is_time_near near tow }
{
    let ahead = u64::from(tow) + WEEK_MS + ALMOST_HALF_DAY_MS - near.ms() % WEEK_MS;
    ahead % WEEK_MS < 2 * ALMOST_HALF_DAY_MS
}

fn is_time_near_if_any(near: GpsMs, tow: Option<u32>) -> bool
    ensures { result ≡ spec.is_time_near_if_any near tow }
{
    match tow {
        Some(tow) => is_time_near(near, tow),
        None => false,
    }
}

fn dates_1012(date: Option<UtcDate>, first: Option<u32>, last: Option<u32>) -> bool
    ensures { result ≡ spec.dates_1012 date first last }
{
    match date {
        Some(date) => {
            let near = moment_of(date);
            is_time_near_if_any(near, first) && is_time_near_if_any(near, last)
        }
        None => false,
    }
}

// Does the command take 1012?
fn takes_1012(date: Option<UtcDate>, station: &StationSurvey) -> bool
    ensures { result ≡ legacy_held date station.now }
{
    dates_1012(date, station.times.first, station.times.last)
        && 0 < epochs_numbered(&station.system_msm, 1012)
}

// ---- the codes that are taken

fn are_clocks_wrong(date: Option<UtcDate>, clocks: &[ClockSurvey], system: System) -> bool
    ensures { result ≡ is_system_wrong date (get_or clocks.now 0 no_clocks).offsets system }
{
    match clocks.first() {
        Some(clocks) => is_system_wrong(date, &clocks.offsets, system),
        None => is_system_wrong(date, &ClockOffsets::new(), system),
    }
}

fn join_part(marks: &mut AnyCodeMarks, part: Option<&SystemMsm>)
    ensures { (c : AnyCode) → is_marked_in marks.new.words (number_of c) ≡ (code_in_part (option_copied part.entry) c || is_marked_in marks.old.words (number_of c)) }
{
    if let Some(part) = part {
        marks.join(&part.signals.codes);
    }
}

// Marks the codes of the MSM of a system, unless its clocks are wrong.
fn join_system(
    marks: &mut AnyCodeMarks,
    date: Option<UtcDate>,
    station: &StationSurvey,
    system: System,
)
    ensures { (c : AnyCode) → is_marked_in marks.new.words (number_of c)
        ≡ (spec.takes_code date (clocks_at station.now.clocks).offsets (system_epochs_held station.now) (codes_held_by station.now) c system
        || is_marked_in marks.old.words (number_of c)) }
{
    if are_clocks_wrong(date, station.clocks.as_slice(), system) {
        return;
    }
    let number = number_by(station, system);
    join_part(marks, station.system_msm.get(&number));
}

// Marks the codes of 1012, unless the clocks of GLONASS are wrong.
fn join_legacy(marks: &mut AnyCodeMarks, date: Option<UtcDate>, station: &StationSurvey)
    ensures { (c : AnyCode) → is_marked_in marks.new.words (number_of c)
        ≡ (spec.takes_code_1012 date (clocks_at station.now.clocks).offsets (codes_held_by station.now) c || is_marked_in marks.old.words (number_of c)) }
{
    if are_clocks_wrong(date, station.clocks.as_slice(), System::Glonass) {
        return;
    }
    join_part(marks, station.system_msm.get(&1012));
}

// The same, if 1012 are taken.
fn join_1012(marks: &mut AnyCodeMarks, date: Option<UtcDate>, station: &StationSurvey, legacy: bool)
    ensures { (c : AnyCode) → is_marked_in marks.new.words (number_of c)
        ≡ ((legacy && spec.takes_code_1012 date (clocks_at station.now.clocks).offsets (codes_held_by station.now) c)
        || is_marked_in marks.old.words (number_of c)) }
{
    if legacy {
        join_legacy(marks, date, station);
    }
}

// Marks the codes of satellites of SBAS of 1004, unless the clocks of SBAS are wrong.
fn join_1004(marks: &mut AnyCodeMarks, date: Option<UtcDate>, station: &StationSurvey)
    ensures { (c : AnyCode) → is_marked_in marks.new.words (number_of c)
        ≡ (spec.takes_code_1004 date (clocks_at station.now.clocks).offsets (codes_held_by station.now) c || is_marked_in marks.old.words (number_of c)) }
{
    if are_clocks_wrong(date, station.clocks.as_slice(), System::Sbas) {
        return;
    }
    join_part(marks, station.system_msm.get(&1004));
}

/// The codes of other systems than GPS that the command takes.
pub(crate) fn taken_codes(date: Option<UtcDate>, station: &StationSurvey) -> AnyCodeMarks
    ensures { (c : AnyCode) → is_marked_in result.words (number_of c) ≡ taken_held date station.now c }
{
    let legacy = takes_1012(date, station);
    let mut marks = AnyCodeMarks::new();
    join_system(&mut marks, date, station, System::Navic);
    join_system(&mut marks, date, station, System::Sbas);
    join_system(&mut marks, date, station, System::Qzss);
    join_system(&mut marks, date, station, System::Beidou);
    join_system(&mut marks, date, station, System::Galileo);
    join_system(&mut marks, date, station, System::Glonass);
    join_1004(&mut marks, date, station);
    join_1012(&mut marks, date, station, legacy);
    marks
}

// ---- the option of kinds

/// The option that names the MSM of all systems.
pub(crate) fn msm_option(named: MsmKind) -> &'static [u8]
    ensures { result.now ≡ msm_option named }
{
    match named {
        MsmKind::Msm4 => b"",
        MsmKind::Msm5 => b" --msm 5",
        MsmKind::Msm6 => b" --msm 6",
        MsmKind::Msm7 => b" --msm 7",
    }
}

fn msm_digit(kind: MsmKind) -> u8
    ensures { result ≡ spec.msm_digit kind }
{
    match kind {
        MsmKind::Msm4 => b'4',
        MsmKind::Msm5 => b'5',
        MsmKind::Msm6 => b'6',
        MsmKind::Msm7 => b'7',
    }
}

// The kind of the first system that is taken.
fn leading_kind(station: &StationSurvey, gps: MsmKind, sent: &SystemsSent) -> MsmKind
    ensures { result ≡ spec.leading_kind gps (system_epochs_held station.now) sent.now }
{
    if sent.gps {
        gps
    } else if sent.glonass {
        kind_by(station, System::Glonass)
    } else if sent.galileo {
        kind_by(station, System::Galileo)
    } else if sent.beidou {
        kind_by(station, System::Beidou)
    } else if sent.qzss {
        kind_by(station, System::Qzss)
    } else if sent.sbas {
        kind_by(station, System::Sbas)
    } else if sent.navic {
        kind_by(station, System::Navic)
    } else {
        gps
    }
}

fn is_other_kind(kind: MsmKind, first: MsmKind) -> bool
    ensures { result ≡ not (spec.msm_digit kind == spec.msm_digit first) }
{
    msm_digit(kind) != msm_digit(first)
}

fn put_other_kind(
    text: &mut Vec<u8>,
    station: &StationSurvey,
    first: MsmKind,
    sent: &SystemsSent,
    system: System,
) -> Result<(), AllocError>
    ensures { OnOk result (text.new.items ≡ text.old.items ++ spec.other_kind_text first (system_epochs_held station.now) sent.now system) }
{
    let kind = kind_by(station, system);
    if sent.has(system) && is_other_kind(kind, first) {
        text.extend_from_slice(&[b',', letter_of(system), msm_digit(kind)])?;
    }
    Ok(())
}

fn put_other_kinds(
    text: &mut Vec<u8>,
    station: &StationSurvey,
    first: MsmKind,
    sent: &SystemsSent,
) -> Result<(), AllocError>
    ensures { OnOk result (text.new.items ≡ text.old.items ++ spec.other_kinds_text first (system_epochs_held station.now) sent.now) }
{
    put_other_kind(text, station, first, sent, System::Glonass)?;
    put_other_kind(text, station, first, sent, System::Galileo)?;
    put_other_kind(text, station, first, sent, System::Beidou)?;
    put_other_kind(text, station, first, sent, System::Qzss)?;
    put_other_kind(text, station, first, sent, System::Sbas)?;
    put_other_kind(text, station, first, sent, System::Navic)?;
    Ok(())
}

fn put_kinds_words(text: &mut Vec<u8>, first: MsmKind, others: &[u8]) -> Result<(), AllocError>
    ensures { OnOk result (text.new.items ≡ text.old.items ++ spec.kinds_words_of first others.now) }
{
    if others.is_empty() {
        return text.extend_from_slice(msm_option(first));
    }
    text.extend_from_slice(b" --msm ")?;
    text.push(msm_digit(first))?;
    text.extend_from_slice(others)?;
    Ok(())
}

fn put_kinds(
    alloc: Global,
    text: &mut Vec<u8>,
    station: &StationSurvey,
    gps: MsmKind,
    sent: &SystemsSent,
) -> Result<(), AllocError>
    ensures { OnOk result (text.new.items ≡ text.old.items ++ spec.kinds_option gps (system_epochs_held station.now) sent.now) }
{
    let first = leading_kind(station, gps, sent);
    let mut others = Vec::new(alloc);
    put_other_kinds(&mut others, station, first, sent)?;
    put_kinds_words(text, first, others.as_slice())?;
    Ok(())
}

// ---- the option of channels

// One field more of a slot.
fn more_told(station: &StationSurvey, slot: u8, told: Option<u8>, field: u8) -> Option<u8>
    requires told { IfSome told (λ f. f < 14) }
    requires field { field < 14 }
    ensures value { result ≡ spec.more_told (fields_held station.now slot) told field }
    ensures bound { IfSome result (λ f. f < 14) }
{
    let count = count_of_field(&station.channels, slot, field);
    match told {
        None if 0 < count => Some(field),
        None => None,
        Some(told) => {
            if count_of_field(&station.channels, slot, told) < count {
                Some(field)
            } else {
                Some(told)
            }
        }
    }
}

// The field that most messages tell of a slot.
fn most_told(station: &StationSurvey, slot: u8) -> Option<u8>
    ensures value { result ≡ spec.told_of_slot (fields_held station.now slot) }
    ensures bound { IfSome result (λ f. f < 14) }
{
    let mut told = None;
    for field in 0u8..CHANNELS {
        told = more_told(station, slot, told, field);
    }
    told
}

fn slot_in_part(part: Option<&SystemMsm>, slot: u8) -> bool
    requires { slot < 28 }
    ensures { result ≡ slot_in_part (option_copied part.entry) slot }
{
    match part {
        Some(part) => part
            .signals
            .satellites
            .is_marked(BEFORE_SLOTS + usize::from(slot)),
        None => false,
    }
}

fn slot_numbered(station: &StationSurvey, slot: u8, number: u16) -> bool
    requires { slot < 28 }
    ensures { result ≡ slot_held station.now slot number }
{
    slot_in_part(station.system_msm.get(&number), slot)
}

fn is_slot_sent(legacy: bool, station: &StationSurvey, slot: u8) -> bool
    requires { slot < 28 }
    ensures { result ≡ slots_held legacy station.now slot }
{
    let number = number_by(station, System::Glonass);
    slot_numbered(station, slot, number) || (legacy && slot_numbered(station, slot, 1012))
}

fn put_item(items: &mut Vec<u8>, slot: u8, told: Option<u8>) -> Result<(), AllocError>
    requires slot { slot < 28 }
    requires told { IfSome told (λ f. f < 14) }
    ensures { OnOk result (items.new.items ≡ items.old.items ++ spec.item_text slot told) }
{
    let Some(field) = told else {
        return Ok(());
    };
    items.push(b',')?;
    let place = FIELDS * u16::from(slot) + u16::from(field);
    put_told_channel(items, place)?;
    Ok(())
}

// A slot that has a value, with its channel.
fn put_slot_item(
    items: &mut Vec<u8>,
    legacy: bool,
    station: &StationSurvey,
    slot: u8,
) -> Result<(), AllocError>
    requires { slot < 28 }
    ensures { OnOk result (items.new.items ≡ items.old.items ++ spec.slot_item (slots_held legacy station.now) (fields_held station.now) slot) }
{
    if !is_slot_sent(legacy, station, slot) {
        return Ok(());
    }
    put_item(items, slot, most_told(station, slot))
}

fn slot_items(alloc: Global, legacy: bool, station: &StationSurvey) -> Result<Vec<u8>, AllocError>
    ensures { IfOk result (λ items. items.items ≡ spec.slot_items (slots_held legacy station.now) (fields_held station.now)) }
{
    let mut items = Vec::new(alloc);
    for slot in 1u8..SLOTS_END {
        put_slot_item(&mut items, legacy, station, slot)?;
    }
    Ok(items)
}

fn put_listed_items(text: &mut Vec<u8>, items: &[u8]) -> Result<(), AllocError>
    ensures { OnOk result (text.new.items ≡ text.old.items ++ spec.listed_items items.now) }
{
    if items.is_empty() {
        return text.extend_from_slice(b" --channels none");
    }
    text.extend_from_slice(b" --channels ")?;
    text.extend_from_slice(&items[1..])?;
    Ok(())
}

fn put_with_1012(text: &mut Vec<u8>, legacy: bool) -> Result<(), AllocError>
    ensures { OnOk result (text.new.items ≡ text.old.items ++ spec.words_with_1012 legacy) }
{
    if legacy {
        text.extend_from_slice(b" --with-1012")?;
    }
    Ok(())
}

// The options of GLONASS.
#[tactic(auto, unfolding(crate::specs::NextCommand::glonass_options))]
fn glonass_options(
    alloc: Global,
    date: Option<UtcDate>,
    station: &StationSurvey,
) -> Result<Vec<u8>, AllocError>
    ensures { IfOk result (λ text. text.items ≡ glonass_held date station.now) }
{
    let legacy = takes_1012(date, station);
    let items = slot_items(alloc, legacy, station)?;
    let mut text = Vec::new(alloc);
    put_listed_items(&mut text, items.as_slice())?;
    put_with_1012(&mut text, legacy)?;
    Ok(text)
}

fn put_glonass_words(
    text: &mut Vec<u8>,
    sent: &SystemsSent,
    options: &[u8],
) -> Result<(), AllocError>
    ensures { OnOk result (text.new.items ≡ text.old.items ++ spec.glonass_words_of sent.now options.now) }
{
    if sent.glonass {
        text.extend_from_slice(options)
    } else {
        Ok(())
    }
}

/// The options of the command of a station, by the MSM of GPS that it takes and the systems that it takes, near a date.
pub(crate) fn next_options(
    alloc: Global,
    date: Option<UtcDate>,
    station: &StationSurvey,
    gps: MsmKind,
    sent: &SystemsSent,
) -> Result<Vec<u8>, AllocError>
    ensures { IfOk result (λ text. text.items
        ≡ spec.next_options (system_epochs_held station.now) (glonass_held date station.now) gps sent.now) }
{
    let glonass = glonass_options(alloc, date, station)?;
    let mut text = Vec::new(alloc);
    put_kinds(alloc, &mut text, station, gps, sent)?;
    put_glonass_words(&mut text, sent, glonass.as_slice())?;
    Ok(text)
}
