//! The captures that were read, and how a refusal lists them.

ghost use Rattle.std.specs.Prelude.{◌≡◌, ◌++◌, flat_map, slice_get, IfOk, OnOk};
ghost use Rattle.rtk_captures.specs.CaptureNames.{capture_name};
ghost use Rattle.rtk_captures.specs.Lists.{date_line};
ghost use Rattle.rtk_captures.specs.RefusalLists as spec;

use crate::chosen_station::STATIONS;
use crate::lists::{
    put_capture_line, put_date_line, put_name_line, put_reach_line, put_station_line,
    put_to_come_line,
};
use crate::station_capture::{StationCapture, epochs_heard, to_come_in, told_in};
use rtk_survey::{CaptureSurvey, Placed, Told};
use std::alloc::{AllocError, Global};

/// The captures that were read, as they were given.
#[derive(Clone, Copy)]
pub struct Captures<'s, 'n> {
    pub surveys: &'s [CaptureSurvey],
    /// Their names.
    pub names: &'s [&'n str],
}

/// The captures that were read, and what each tells of one station.
#[derive(Clone, Copy)]
pub struct StationCaptures<'c, 's, 'n> {
    pub all: Captures<'s, 'n>,
    pub station: u16,
    /// What each capture tells of the station.
    pub captures: &'c [StationCapture],
}

fn put_to_come_if(lines: &mut Vec<u8>, told: Option<Told>, name: &str) -> Result<(), AllocError>
    ensures { OnOk result (lines.new.items ≡ lines.old.items ++ spec.to_come_line_if told name.now) }
{
    match told {
        Some(told) => put_to_come_line(lines, &told, name),
        None => Ok(()),
    }
}

// Appends the line of a capture, if it has nothing of the station.
fn put_empty_if(lines: &mut Vec<u8>, capture: &StationCapture, name: &str) -> Result<(), AllocError>
    ensures { OnOk result (lines.new.items ≡ lines.old.items ++ spec.empty_line_if capture.now name.now) }
{
    if capture.is_heard {
        Ok(())
    } else {
        put_capture_line(lines, b" ", name, capture.look)
    }
}

fn put_dates(lines: &mut Vec<u8>, dates: &[Told], name: &str) -> Result<(), AllocError>
    ensures { OnOk result (lines.new.items ≡ lines.old.items ++ flat_map (λ t. date_line t name.now) dates.now) }
{
    for date in dates {
        put_date_line(lines, date, name)?;
    }
    Ok(())
}

// Appends a line for each first epoch, if there are several.
fn put_differing(lines: &mut Vec<u8>, dates: &[Told], name: &str) -> Result<(), AllocError>
    ensures { OnOk result (lines.new.items ≡ lines.old.items ++ spec.differing_lines dates.now name.now) }
{
    if dates.len() < 2 {
        return Ok(());
    }
    put_dates(lines, dates, name)
}

fn put_told_if(lines: &mut Vec<u8>, told: Option<Told>, name: &str) -> Result<(), AllocError>
    ensures { OnOk result (lines.new.items ≡ lines.old.items ++ spec.told_line_if told name.now) }
{
    match told {
        Some(told) => put_date_line(lines, &told, name),
        None => Ok(()),
    }
}

fn put_reach_if(
    lines: &mut Vec<u8>,
    reach: Option<Placed>,
    epochs: u64,
    name: &str,
) -> Result<(), AllocError>
    ensures { OnOk result (lines.new.items ≡ lines.old.items ++ spec.reach_line_if reach epochs name.now) }
{
    match reach {
        Some(reach) => put_reach_line(lines, &reach, epochs, name),
        None => Ok(()),
    }
}

impl<'n> Captures<'_, 'n> {
    /// The name of a capture.
    pub fn name(&self, place: usize) -> &'n str
        ensures { result.now ≡ capture_name self.now.names.now place }
    {
        if place < self.names.len() {
            self.names[place]
        } else {
            ""
        }
    }

    /// A line for each capture, with what it looks like if it has no frame.
    pub fn list_all(&self, alloc: Global) -> Result<Vec<u8>, AllocError>
        ensures { IfOk result (λ lines. lines.items ≡ spec.listed_captures self.now.names.now self.now.surveys.now) }
    {
        let mut lines = Vec::new(alloc);
        for (place, survey) in self.surveys.iter().enumerate() {
            put_capture_line(&mut lines, b" ", self.name(place), survey.look)?;
        }
        Ok(lines)
    }

    // A line for each capture that has observations of the station.
    fn put_station_lines(&self, lines: &mut Vec<u8>, station: u16) -> Result<(), AllocError>
        ensures { OnOk result (lines.new.items ≡ lines.old.items ++ spec.listed_station self.now.names.now self.now.surveys.now station) }
    {
        for (place, survey) in self.surveys.iter().enumerate() {
            put_station_line(lines, survey, station, self.name(place))?;
        }
        Ok(())
    }

    /// A line for each station with observations and each capture that has them.
    pub fn list_stations(&self, alloc: Global) -> Result<Vec<u8>, AllocError>
        ensures { IfOk result (λ lines. lines.items ≡ spec.listed_stations self.now.names.now self.now.surveys.now) }
    {
        let mut lines = Vec::new(alloc);
        for station in 0..STATIONS {
            self.put_station_lines(&mut lines, station)?;
        }
        Ok(lines)
    }

    /// A line for each capture with a date that is to come.
    pub(crate) fn list_to_come(&self, alloc: Global) -> Result<Vec<u8>, AllocError>
        ensures { IfOk result (λ lines. lines.items ≡ spec.listed_to_come self.now.names.now self.now.surveys.now) }
    {
        let mut lines = Vec::new(alloc);
        for (place, survey) in self.surveys.iter().enumerate() {
            put_to_come_if(&mut lines, to_come_in(survey), self.name(place))?;
        }
        Ok(lines)
    }

    /// A line for each of some captures.
    pub fn list_names(&self, alloc: Global, places: &[usize]) -> Result<Vec<u8>, AllocError>
        ensures { IfOk result (λ lines. lines.items ≡ spec.listed_names self.now.names.now places.now) }
    {
        let mut lines = Vec::new(alloc);
        for place in places {
            put_name_line(&mut lines, b" ", self.name(*place))?;
        }
        Ok(lines)
    }
}

impl StationCaptures<'_, '_, '_> {
    /// A line for each capture that has nothing of the station.
    pub fn list_empty(&self, alloc: Global) -> Result<Vec<u8>, AllocError>
        ensures { IfOk result (λ lines. lines.items ≡ spec.listed_empty self.now.all.names.now self.now.captures.now) }
    {
        let mut lines = Vec::new(alloc);
        for (place, capture) in self.captures.iter().enumerate() {
            put_empty_if(&mut lines, capture, self.all.name(place))?;
        }
        Ok(lines)
    }

    /// A line for each first epoch that a capture tells, where they differ.
    pub fn list_dates(&self, alloc: Global) -> Result<Vec<u8>, AllocError>
        ensures { IfOk result (λ lines. lines.items ≡ spec.listed_dates self.now.all.names.now self.now.station self.now.all.surveys.now) }
    {
        let mut lines = Vec::new(alloc);
        for (place, survey) in self.all.surveys.iter().enumerate() {
            put_differing(
                &mut lines,
                told_in(self.station, survey),
                self.all.name(place),
            )?;
        }
        Ok(lines)
    }

    // How many epochs of the station a capture has.
    fn epochs(&self, place: usize) -> u64
        ensures { result ≡ spec.epochs_in_survey self.now.station (slice_get self.now.all.surveys.now place) }
    {
        match self.all.surveys.get(place) {
            Some(survey) => epochs_heard(survey.contents.stations.get(&self.station)),
            None => 0,
        }
    }

    /// A line for each capture that has epochs, with the first and the last of them.
    pub fn list_reaches(
        &self,
        alloc: Global,
        placed: &[Option<Placed>],
    ) -> Result<Vec<u8>, AllocError>
        ensures { IfOk result (λ lines. lines.items
            ≡ spec.listed_reaches self.now.all.names.now self.now.station self.now.all.surveys.now placed.now) }
    {
        let mut lines = Vec::new(alloc);
        for (place, reach) in placed.iter().enumerate() {
            put_reach_if(&mut lines, *reach, self.epochs(place), self.all.name(place))?;
        }
        Ok(lines)
    }

    /// A line for each capture that tells its first epoch.
    pub fn list_told(&self, alloc: Global) -> Result<Vec<u8>, AllocError>
        ensures { IfOk result (λ lines. lines.items ≡ spec.listed_told self.now.all.names.now self.now.captures.now) }
    {
        let mut lines = Vec::new(alloc);
        for (place, capture) in self.captures.iter().enumerate() {
            put_told_if(&mut lines, capture.told, self.all.name(place))?;
        }
        Ok(lines)
    }
}
