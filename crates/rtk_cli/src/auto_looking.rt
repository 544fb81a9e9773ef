//! What `auto` looks at before it opens a capture: the files that its words name, and the present.

ghost use Rattle.std.specs.Prelude.{◌≤◌, IfErr};
ghost use Rattle.rtk_commands.specs.declared.exit_status.TheConstants.{NOT_VALID};

use crate::auto_refusing::{fail_output, fail_to_find, refuse_other, refuse_twice};
use rtk_commands::{
    FAILED, FileIdentity, NOT_VALID, Named, PresentFault, PresentTime, REFUSED, STDIN, ToolFault,
    can_get_name, fail, present, standard_output_file, what_is_named,
};
use rtk_obs::GpsMs;
use rtk_rinex::CreationTime;
use std::env::Env;
use std::fs::Files;
use std::time::Clock;

/// 1980-01-06 00:00:00, in s since 1970.
const GPS_BEGIN_S: u64 = 315_964_800;

// What a capture's name means; a status if it can't be read twice.
fn identity_of<R: Files + Eprint + AllocGlobal>(
    rt: &R,
    name: &str,
) -> Result<Option<FileIdentity>, u8>
    ensures { IfErr result (λ status. status ≤ NOT_VALID) }
{
    if name == STDIN {
        let _told = eprintln!(rt; "rtcm2rinex: auto reads each capture twice, and stdin can't be");
        return Err(REFUSED);
    }
    match what_is_named(rt, name) {
        Named::File(identity) => Ok(identity),
        Named::Nothing => Err(fail_to_find(rt, name)),
        Named::Other => Err(refuse_other(rt, name)),
    }
}

// Is a file among others?
fn place_among(
    identities: &[Option<FileIdentity>],
    identity: Option<FileIdentity>,
) -> Option<usize> {
    if identity.is_none() {
        return None;
    }
    identities.iter().position(|other| *other == identity)
}

// Looks at the captures: what can't be read twice, or is named twice, ends the run.
fn identities_of<R: Files + Eprint + AllocGlobal>(
    rt: &R,
    names: &[&str],
) -> Result<Vec<Option<FileIdentity>>, u8>
    ensures { IfErr result (λ status. status ≤ NOT_VALID) }
{
    let mut identities = Vec::new(rt.alloc());
    for name in names {
        let identity = identity_of(rt, *name)?;
        if place_among(identities.as_slice(), identity).is_some() {
            return Err(refuse_twice(rt, *name));
        }
        if identities.push(identity).is_err() {
            return Err(fail(rt, ToolFault::OutOfMemory));
        }
    }
    Ok(identities)
}

// The file to which the output goes, if it is there and the system tells.
fn output_identity<R: Files>(rt: &R, output: Option<&str>) -> Option<FileIdentity> {
    let Some(name) = output else {
        return standard_output_file(rt);
    };
    match what_is_named(rt, name) {
        Named::File(identity) => identity,
        _ => None,
    }
}

/// Looks at the files that are named, before one of them is opened.
pub(crate) fn look_at_files<R: Files + Eprint + AllocGlobal>(
    rt: &R,
    names: &[&str],
    output: Option<&str>,
    force: bool,
) -> Result<(), u8>
    ensures { IfErr result (λ status. status ≤ NOT_VALID) }
{
    if output == Some("-") {
        let _told = eprintln!(rt;
            "rtcm2rinex: -o - names no file; leave out -o for standard output, or say -o ./-"
        );
        return Err(REFUSED);
    }
    let identities = identities_of(rt, names)?;
    let found = output_identity(rt, output);
    if place_among(identities.as_slice(), found).is_some() {
        let _told = eprintln!(rt; "rtcm2rinex: the output is one of the captures");
        return Err(FAILED);
    }
    let Some(name) = output else {
        return Ok(());
    };
    match can_get_name(rt, name, force) {
        Ok(()) => Ok(()),
        Err(fault) => Err(fail_output(rt, name, fault)),
    }
}

// The time of making at this many seconds since 1970.
fn creation_time_at(seconds: u64) -> Option<CreationTime> {
    let moment = GpsMs::new(seconds.checked_sub(GPS_BEGIN_S)?.checked_mul(1000)?)?;
    let Ok(made) = CreationTime::new(moment) else {
        unreachable!();
    };
    Some(made)
}

// The clock has no moment that can be written.
fn fail_clock<R: Eprint>(rt: &R) -> u8
    ensures { result ≤ NOT_VALID }
{
    let _told = eprintln!(rt; "rtcm2rinex: the clock can't be read; give --made");
    NOT_VALID
}

// `SOURCE_DATE_EPOCH` is no moment that can be written.
fn fail_variable<R: Eprint>(rt: &R) -> u8
    ensures { result ≤ NOT_VALID }
{
    let _told = eprintln!(rt; "rtcm2rinex: SOURCE_DATE_EPOCH is not from 1980-01-06 to 2100-12-31");
    NOT_VALID
}

// The present as a time of making, if it can be written.
fn creation_time_of_present<R: Eprint>(rt: &R, time: PresentTime) -> Result<CreationTime, u8>
    ensures { IfErr result (λ status. status ≤ NOT_VALID) }
{
    match time {
        PresentTime::Variable(seconds) => match creation_time_at(seconds) {
            Some(made) => Ok(made),
            None => Err(fail_variable(rt)),
        },
        PresentTime::Clock(seconds) => match creation_time_at(seconds) {
            Some(made) => Ok(made),
            None => Err(fail_clock(rt)),
        },
    }
}

/// The moment at which the file is made: as words give it, else the present.
pub(crate) fn made_at<R: Env + Clock + Eprint + AllocGlobal>(
    rt: &R,
    made: Option<CreationTime>,
) -> Result<CreationTime, u8>
    ensures { IfErr result (λ status. status ≤ NOT_VALID) }
{
    if let Some(made) = made {
        return Ok(made);
    }
    match present(rt) {
        Ok(time) => creation_time_of_present(rt, time),
        Err(PresentFault::NoClock) => Err(fail_clock(rt)),
        Err(PresentFault::BadVariable) => {
            let _told = eprintln!(rt; "rtcm2rinex: SOURCE_DATE_EPOCH is no number of seconds");
            Err(REFUSED)
        }
        Err(PresentFault::OutOfMemory) => Err(fail(rt, ToolFault::OutOfMemory)),
    }
}
