//! The numbers of a file of any systems.

ghost use Rattle.std.specs.Prelude.{◌≡◌, ◌≤◌, ◌++◌, ℕ, List, length, Option, IfOk, OnOk};
ghost use Rattle.rtk_rinex.specs.MixedTable.{MixedTable, IsMixedTable, mixed_table_text};
ghost use Rattle.rtk_rinex.specs.Record.{EpochTableView};
ghost use Rattle.rtk_tracking.specs.Epochs.{newest_first};
ghost use Rattle.rtk_quality.specs.MixedQuality.{system_start, totals_text, system_text, part_of_system, parts_of_systems, systems_text, mixed_heading_text, mixed_quality_text, mixed_text_of_none, TellsMixedQuality};
ghost use Rattle.rtk_quality.specs.Records.{unit_of};
ghost use Rattle.rtk_quality.specs.Standing.{HasCounted, IsTimesOf};

use crate::document::{put_body, put_close};
use crate::file_counts::{FileCounts, satellites_in, station_sums};
use crate::file_times::{FileTimes, times_of};
use crate::form::{Form, put_either, put_end};
use crate::heading::{ListedCounts, put_listed, put_marker, put_satellites, put_span, put_station};
use crate::lines::put_count;
use crate::lists::{begin_list, end_list};
use crate::pass_sums::PassSums;
use crate::record_counts::{RecordCounts, unit_ms};
use crate::shifts::put_shifts_if;
use crate::station::put_gaps;
use crate::system_counts::count_system;
use rtk_message::System;
use rtk_obs::{AnyCode, Civil, GpsMs, civil, letter_of};
use rtk_rinex::{MixedHead, MixedTextTable};
use rtk_tracking::{codes_of_system, mixed_interval};
use std::alloc::{AllocError, Global};

// Appends the beginning of the part of a system.
#[tactic(auto, unfolding(crate::specs::MixedQuality::system_start))]
fn put_system_start(text: &mut Vec<u8>, form: Form, system: System) -> Result<(), AllocError>
    ensures { OnOk result (text.new.items ≡ text.old.items ++ system_start form system) }
{
    match form {
        Form::Table => {
            text.extend_from_slice(b"\nsystem ")?;
            text.extend_from_slice(&[letter_of(system)])
        }
        Form::Lines => {
            text.extend_from_slice(b"system ")?;
            text.extend_from_slice(&[letter_of(system)])
        }
        Form::Json => {
            text.extend_from_slice(b",\n{\"totals\":{\"system\":\"")?;
            text.extend_from_slice(&[letter_of(system)])?;
            text.extend_from_slice(b"\"")
        }
    }
}

// Appends the totals of a system.
#[tactic(auto, unfolding(crate::specs::MixedQuality::totals_text))]
fn put_totals(
    text: &mut Vec<u8>,
    form: Form,
    system: System,
    satellites: u64,
    records: &RecordCounts,
    listed: &ListedCounts,
    sums: &PassSums,
) -> Result<(), AllocError>
    ensures { OnOk result (text.new.items ≡ text.old.items ++ totals_text form system satellites records.now listed.now sums.now) }
{
    put_system_start(text, form, system)?;
    put_satellites(text, form, satellites, records)?;
    put_station(text, form, sums)?;
    put_listed(text, form, listed)?;
    put_end(text, form)?;
    Ok(())
}

// Appends the part of a system with these codes, whose counts these are.
fn put_counted(
    alloc: Global,
    text: &mut Vec<u8>,
    has_shifts: bool,
    form: Form,
    system: System,
    codes: &[AnyCode],
    counts: &FileCounts,
) -> Result<(), AllocError>
    requires few { length codes.now ≤ 16 }
    requires size { length counts.now.satellites.items ≡ 221 }
    ensures { OnOk result ((interval : Option ℕ) (es : List EpochTableView) → HasCounted counts.now 221 interval (unit_of interval) codes.now es
        → text.new.items ≡ text.old.items ++ system_text has_shifts form system codes.now interval es) }
{
    let satellites = counts.satellites.as_slice();
    let seen = satellites_in(satellites) as u64;
    let sums = station_sums(satellites);
    let listed = ListedCounts::of(counts);
    put_totals(text, form, system, seen, &counts.records, &listed, &sums)?;
    put_body(alloc, text, false, form, codes, counts)?;
    put_shifts_if(text, has_shifts, form, codes, satellites)?;
    put_either(text, form, b"", b"}")?;
    Ok(())
}

// Appends the part of a system, if it has a code.
fn put_system(
    alloc: Global,
    text: &mut Vec<u8>,
    form: Form,
    table: &MixedTextTable<'_>,
    head: &MixedHead,
    interval: Option<u64>,
    system: System,
) -> Result<(), AllocError>
    ensures { OnOk result ((t : MixedTable) → IsMixedTable t → table.now.text ≡ mixed_table_text t
        → text.new.items ≡ text.old.items ++ part_of_system head.now.doppler form head.now.listed interval t.epochs system) }
{
    let own = codes_of_system(alloc, system, head.codes())?;
    let codes = own.as_slice();
    if codes.len() == 0 {
        return Ok(());
    }
    let has_shifts = head.has_doppler();
    let counts = count_system(alloc, table, system, codes, interval)?;
    put_counted(alloc, text, has_shifts, form, system, codes, &counts)?;
    Ok(())
}

// Appends the parts of all systems.
fn put_parts(
    alloc: Global,
    text: &mut Vec<u8>,
    form: Form,
    table: &MixedTextTable<'_>,
    head: &MixedHead,
    interval: Option<u64>,
) -> Result<(), AllocError>
    ensures { OnOk result ((t : MixedTable) → IsMixedTable t → table.now.text ≡ mixed_table_text t
        → text.new.items ≡ text.old.items ++ parts_of_systems head.now.doppler form head.now.listed interval t.epochs) }
{
    put_system(alloc, text, form, table, head, interval, System::Gps)?;
    put_system(alloc, text, form, table, head, interval, System::Glonass)?;
    put_system(alloc, text, form, table, head, interval, System::Galileo)?;
    put_system(alloc, text, form, table, head, interval, System::Beidou)?;
    put_system(alloc, text, form, table, head, interval, System::Qzss)?;
    put_system(alloc, text, form, table, head, interval, System::Sbas)?;
    put_system(alloc, text, form, table, head, interval, System::Navic)?;
    Ok(())
}

// Appends the systems.
fn put_systems(
    alloc: Global,
    text: &mut Vec<u8>,
    form: Form,
    table: &MixedTextTable<'_>,
    head: &MixedHead,
    interval: Option<u64>,
) -> Result<(), AllocError>
    ensures { OnOk result ((t : MixedTable) → IsMixedTable t → table.now.text ≡ mixed_table_text t
        → text.new.items ≡ text.old.items ++ systems_text head.now.doppler form head.now.listed interval t.epochs) }
{
    let start = begin_list(text, form, b"", b",\n\"systems\":[")?;
    put_parts(alloc, text, form, table, head, interval)?;
    end_list(text, form, start)?;
    Ok(())
}

// Appends the lines of the whole file.
#[tactic(auto, unfolding(crate::specs::MixedQuality::mixed_heading_text))]
fn put_mixed_heading(
    text: &mut Vec<u8>,
    form: Form,
    marker: &[u8],
    from: Civil,
    until: Civil,
    interval: Option<u64>,
    records: &RecordCounts,
    gaps: u64,
) -> Result<(), AllocError>
    ensures { OnOk result (text.new.items ≡ text.old.items ++ mixed_heading_text form marker.now from until interval records.now gaps) }
{
    put_marker(text, form, marker)?;
    put_span(text, form, from, until, interval, records)?;
    put_count(text, form, b"\ngaps ", b",\"gaps\":", gaps)?;
    put_end(text, form)?;
    Ok(())
}

// The numbers of a file with records, whose moments these are.
fn mixed_text(
    alloc: Global,
    form: Form,
    table: &MixedTextTable<'_>,
    last: GpsMs,
    interval: Option<u64>,
    times: &FileTimes,
) -> Result<Vec<u8>, AllocError>
    ensures { IfOk result (λ text. (t : MixedTable) → IsMixedTable t → table.now.text ≡ mixed_table_text t
        → IsTimesOf times.now (unit_of interval) (newest_first t.epochs)
        → text.items ≡ mixed_quality_text t.head.doppler form t.head.marker t.head.listed t.first last interval t.epochs) }
{
    let heading = table.heading();
    let marker = heading.head.marker();
    let from = civil(heading.first);
    let until = civil(last);
    let gaps = times.gaps.count;
    let mut text = Vec::new(alloc);
    put_mixed_heading(
        &mut text,
        form,
        marker,
        from,
        until,
        interval,
        &times.records,
        gaps,
    )?;
    put_gaps(&mut text, form, &times.gaps)?;
    put_systems(alloc, &mut text, form, table, &heading.head, interval)?;
    put_close(&mut text, form)?;
    Ok(text)
}

// The numbers of a file without records.
#[tactic(auto, unfolding(crate::specs::MixedQuality::mixed_text_of_none))]
fn mixed_text_of_none(alloc: Global, form: Form, marker: &[u8]) -> Result<Vec<u8>, AllocError>
    ensures { IfOk result (λ text. text.items ≡ mixed_text_of_none form marker.now) }
{
    let mut text = Vec::new(alloc);
    put_marker(&mut text, form, marker)?;
    put_count(&mut text, form, b"\nrecords ", b",\"records\":", 0)?;
    put_end(&mut text, form)?;
    put_either(&mut text, form, b"", b",\n\"gaps\":[],\n\"systems\":[]")?;
    put_close(&mut text, form)?;
    Ok(text)
}

/// The numbers of a file of any systems as text, in one of the forms that `quality` has for GPS: those of the file, and
/// then a part for each system of which the file has a code, in the order G, R, E, C, J, S, I. The file is read once for
/// each of them.
pub fn mixed_quality(
    alloc: Global,
    form: Form,
    table: &MixedTextTable<'_>,
) -> Result<Vec<u8>, AllocError>
    // Fails only if memory is refused: tests/system/calls, row mixed_quality.
    ensures { IfOk result (λ text. TellsMixedQuality form table.now.text text.items) }
{
    let interval = mixed_interval(alloc, table)?;
    let times = times_of(alloc, table, unit_ms(interval))?;
    match times.records.last {
        Some(last) => {
            let text = mixed_text(alloc, form, table, last, interval, &times)?;
            Ok(text)
        }
        None => {
            let heading = table.heading();
            let text = mixed_text_of_none(alloc, form, heading.head.marker())?;
            Ok(text)
        }
    }
}
