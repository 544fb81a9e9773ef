//! The command `auto`: it reads the captures, finds what their conversion is told, converts them, and
//! says how it went.

ghost use Rattle.std.specs.Prelude.{◌≡◌, ◌≤◌, IfOk, IfErr, IsOk, IsTrue};
ghost use Rattle.rtk_convert.specs.Failure.{IsRunFault};
ghost use Rattle.rtk_commands.specs.declared.exit_status.TheConstants.{NOT_VALID};
ghost use Rattle.rtk_cli.specs.Said.{ReadsPlanned, IsSaid};

use crate::auto_converting::convert_joined;
use crate::auto_labelling::Labelled;
use crate::auto_looking::{look_at_files, made_at};
use crate::auto_parting::put_parting_of;
use crate::auto_reading::survey_captures;
use crate::auto_refusing::{fail_differing, fail_output, keep_named, quoted};
use crate::auto_rereading::{
    CaptureRead, capture_name, captures_of_links, files_of_links, name_at,
};
use crate::auto_saying::{
    Outcome, done_status, named_status, names_of_links, put_same_by_hand, said_after, tell,
};
use crate::capture_order::in_order_of_names;
use crate::converting::{Converted, conversion_status};
use crate::watching::Watched;
use crate::words::AutoWords;
use rtk_captures::{Captures, PlanFault, Refusal, equipment_in_captures};
use rtk_commands::{
    Beside, Digest, FAILED, NOT_VALID, Quiet, ToolFault, Unbroken, fail, is_there, let_go,
    make_beside, name_whole,
};
use rtk_convert::{Setup, Station};
use rtk_label::Label;
use rtk_plan::{
    Known, Plan, Reported, Ways, WrittenFile, dating_wanted, label_wanted, plan_of,
    put_label_command, what_is_known,
};
use rtk_rinex::CreationTime;
use rtk_survey::Target;
use std::alloc::{AllocError, Global};
use std::cell::Cell;
use std::env::Env;
use std::fs::Files;
use std::io;
use std::io::Write;
use std::time::Clock;

// Says why the captures of these names have no plan. A capture that is to be parted is read again, to find the
// byte.
fn fail_plan<R: Files + Input + Eprint + AllocGlobal, W: Write>(
    rt: &R,
    report: &mut Unbroken<W>,
    fault: PlanFault,
    names: &[&str],
) -> u8
    ensures { result ≤ NOT_VALID }
{
    let PlanFault::Refused { refusal, list } = fault else {
        return fail(rt, ToolFault::OutOfMemory);
    };
    let mut lines = list;
    if let Refusal::TwoDates { capture, frame } = refusal {
        let name = capture_name(names, capture);
        if let Err(status) = put_parting_of(rt, &mut lines, name, frame) {
            return status;
        }
    }
    let _told = eprintln!(rt; "rtcm2rinex: {refusal}");
    tell(report, lines.as_slice());
    NOT_VALID
}

// What is known of a conversion before it begins.
#[derive(Drop)]
struct Work<'a> {
    setup: Setup,
    // The captures of each link.
    links: Vec<Vec<CaptureRead<'a>>>,
    known: Known,
    // The label that the file gets.
    label: Option<Label>,
}

// Converts captures that are read again. The place of one that is not as it was is put into `differing`.
fn convert_again<'a, R: Files + Eprint + AllocGlobal, O: Write + Drop, W: Write + Drop>(
    rt: &'a R,
    setup: Setup,
    links: &[Vec<CaptureRead<'a>>],
    differing: &'a Cell<Option<usize>>,
    out: O,
    report: W,
) -> Result<Converted<O, W>, u8>
    ensures faults { IfOk result (λ converted. IfErr converted.done IsRunFault) }
    ensures status { IfErr result (λ status. status ≤ NOT_VALID) }
{
    let Ok(files) = files_of_links(rt.alloc(), rt, links, differing) else {
        return Err(fail(rt, ToolFault::OutOfMemory));
    };
    match convert_joined(rt.alloc(), setup, files, out, report) {
        Ok(converted) => Ok(converted),
        Err(fault) => Err(fail(rt, fault)),
    }
}

// Converts to a writer, which is handed back with the counts, and says how it went.
fn convert_to<R: Files + Eprint + AllocGlobal, O: Write + Drop, W: Write + Drop>(
    rt: &R,
    work: Work<'_>,
    out: O,
    report: Unbroken<W>,
    is_reported: bool,
) -> Result<(O, Outcome), u8>
    ensures { IfErr result (λ status. status ≤ NOT_VALID) }
{
    let differing: Cell<Option<usize>> = Cell::new(None);
    let out = Watched::new(out, WrittenFile::new(rt.alloc()));
    let report = Watched::new(Quiet::new(report, !is_reported), Reported::new());
    let converted = convert_again(
        rt,
        work.setup,
        work.links.as_slice(),
        &differing,
        out,
        report,
    )?;
    if let Some(place) = differing.get() {
        return Err(fail_differing(rt, name_at(work.links.as_slice(), place)));
    }
    finish(
        rt,
        converted,
        &work.known,
        work.links.as_slice(),
        is_reported,
    )
}

// Says how a conversion went.
fn finish<R: Files + Eprint + AllocGlobal, O: Write + Drop, W: Write + Drop>(
    rt: &R,
    converted: Converted<Watched<O, WrittenFile>, Watched<Quiet<Unbroken<W>>, Reported>>,
    known: &Known,
    links: &[Vec<CaptureRead<'_>>],
    is_reported: bool,
) -> Result<(O, Outcome), u8>
    requires { IfErr converted.done IsRunFault }
    ensures whole { IsOk result → IsOk converted.done × IsTrue converted.is_out }
    ensures status { IfErr result (λ status. status ≤ NOT_VALID) }
{
    let counts = match converted.done {
        Ok(counts) if converted.is_out => counts,
        done => return Err(conversion_status(rt, done, converted.is_out)),
    };
    let Ok(written) = converted.out.into_parts() else {
        return Err(fail(rt, ToolFault::OutOfMemory));
    };
    let Ok(listed) = converted.report.into_parts() else {
        return Err(fail(rt, ToolFault::OutOfMemory));
    };
    let (out, file) = written;
    let (report, reported) = listed;
    let mut outcome = Outcome {
        counts,
        file,
        reported,
        is_heard: true,
    };
    let Ok(lines) = said_after(rt, &outcome, known, links, is_reported) else {
        return Err(fail(rt, ToolFault::OutOfMemory));
    };
    let mut report = report.into_inner();
    tell(&mut report, lines.as_slice());
    outcome.is_heard = !report.has_failed();
    Ok((out, outcome))
}

// Converts to a file beside this name, with its label. If that is not whole, it is let go.
fn convert_beside<R: Files + Eprint + AllocGlobal, W: Write + Drop>(
    rt: &R,
    mut work: Work<'_>,
    report: Unbroken<W>,
    name: &str,
    is_reported: bool,
) -> Result<(Beside<R::File>, Outcome), u8>
    ensures { IfErr result (λ status. status ≤ NOT_VALID) }
{
    let beside = match make_beside(rt, name) {
        Ok(beside) => beside,
        Err(fault) => return Err(fail_output(rt, name, fault)),
    };
    let file = Labelled::new(beside.file, work.label.take());
    match convert_to(rt, work, file, report, is_reported) {
        Ok((file, outcome)) => Ok((
            Beside {
                file: file.into_inner(),
                name: beside.name,
            },
            outcome,
        )),
        Err(status) => {
            let_go(rt, beside.name.as_str());
            Err(status)
        }
    }
}

// Gives a file that was converted its name, or else says why not. A file without a record replaces none. It is no part of its caller:
// the calls of the system hold names on the stack, and the conversion, which the caller calls before, needs that room.
#[inline(never)]
fn name_converted<R: Files + Eprint + AllocGlobal>(
    rt: &R,
    whole: Beside<R::File>,
    outcome: &Outcome,
    name: &str,
    force: bool,
) -> Result<(), u8>
    ensures { IfErr result (λ status. status ≤ NOT_VALID) }
{
    if force && outcome.counts.epochs == 0 && is_there(rt, name) {
        let_go(rt, whole.name.as_str());
        if !outcome.is_heard {
            return Err(FAILED);
        }
        return Err(keep_named(rt, name));
    }
    match name_whole(rt, whole.file, whole.name.as_str(), name, force) {
        Ok(()) => Ok(()),
        Err(fault) => Err(fail_output(rt, name, fault)),
    }
}

// Converts to a file beside this name, which gets the name once it is whole.
#[inline(never)]
fn convert_to_file<R: Files + Eprint + AllocGlobal, W: Write + Drop>(
    rt: &R,
    work: Work<'_>,
    report: Unbroken<W>,
    name: &str,
    ways: &Ways<'_>,
) -> u8
    ensures { result ≤ NOT_VALID }
{
    // Once FILE has its name, no memory is asked for.
    let Ok(shown) = quoted(rt.alloc(), name) else {
        return fail(rt, ToolFault::OutOfMemory);
    };
    let (whole, outcome) = match convert_beside(rt, work, report, name, ways.report) {
        Ok(done) => done,
        Err(status) => return status,
    };
    match name_converted(rt, whole, &outcome, name, ways.force) {
        Ok(()) => named_status(rt, &outcome, shown.as_str()),
        Err(status) => status,
    }
}

// Converts to standard output.
#[inline(never)]
fn convert_to_output<R: Files + Print + Eprint + AllocGlobal, W: Write + Drop>(
    rt: &R,
    work: Work<'_>,
    report: Unbroken<W>,
    ways: &Ways<'_>,
) -> u8
    ensures { result ≤ NOT_VALID }
{
    match convert_to(rt, work, io::writer(rt), report, ways.report) {
        Ok((_out, outcome)) => done_status(rt, &outcome),
        Err(status) => status,
    }
}

// The conversion of a plan, once it is said what it is.
fn work_of<'a>(
    alloc: Global,
    captures: &Captures<'_, 'a>,
    digests: &[Digest],
    plan: Plan,
    ways: &Ways<'_>,
    lines: &mut Vec<u8>,
) -> Result<Work<'a>, AllocError>
    ensures setup { IfOk result (λ work. work.setup ≡ plan.setup) }
    ensures links { IfOk result (λ work. ReadsPlanned captures.now.names.now plan.links.items work.links.items) }
    ensures said { IfOk result (λ work. IsSaid lines.old.items lines.new.items work.setup work.links.items) }
{
    let links = captures_of_links(alloc, plan.links.as_slice(), captures.names, digests)?;
    let named = names_of_links(alloc, links.as_slice())?;
    put_same_by_hand(lines, &plan.setup, named.as_slice())?;
    let (station, near) = (plan.setup.station(), plan.setup.near());
    let told = equipment_in_captures(alloc, captures.surveys, station, near)?;
    put_label_command(alloc, lines, &told, ways.output)?;
    let label = label_wanted(&told, ways);
    let known = what_is_known(alloc, captures, &plan, &told)?;
    Ok(Work {
        setup: plan.setup,
        links,
        known,
        label,
    })
}

// The conversion of captures that were surveyed, once it is said what it is.
fn begin_planned<'a, R: Files + Input + Eprint + AllocGlobal, W: Write>(
    rt: &R,
    report: &mut Unbroken<W>,
    words: &AutoWords<'_>,
    captures: &Captures<'_, 'a>,
    digests: &[Digest],
    made: CreationTime,
) -> Result<Work<'a>, u8>
    ensures { IfErr result (λ status. status ≤ NOT_VALID) }
{
    let ways = &words.ways;
    let plan = plan_of(
        rt.alloc(),
        captures,
        &words.wanted,
        made,
        ways.skip_empty,
        ways.links_as_given,
    );
    let plan = match plan {
        Ok(plan) => plan,
        Err(fault) => return Err(fail_plan(rt, report, fault, captures.names)),
    };
    let mut lines = Vec::new(rt.alloc());
    let Ok(work) = work_of(rt.alloc(), captures, digests, plan, ways, &mut lines) else {
        return Err(fail(rt, ToolFault::OutOfMemory));
    };
    tell(report, lines.as_slice());
    Ok(work)
}

// Looks at the files, surveys the captures, plans their conversion, and says it. The surveys are let go
// here, before the conversion begins.
#[inline(never)]
fn begin<'a, R: Env + Clock + Files + Input + Eprint + AllocGlobal, W: Write>(
    rt: &R,
    report: &mut Unbroken<W>,
    words: &AutoWords<'_>,
    names: &[&'a str],
) -> Result<Work<'a>, u8>
    ensures { IfErr result (λ status. status ≤ NOT_VALID) }
{
    look_at_files(rt, names, words.ways.output, words.ways.force)?;
    let made = made_at(rt, words.made)?;
    let target = Target {
        station: words.wanted.station.map(Station::number),
        systems: dating_wanted(&words.wanted),
        present: made.moment(),
    };
    let as_given = words.ways.links_as_given;
    let Ok(names) = in_order_of_names(rt.alloc(), names, as_given) else {
        return Err(fail(rt, ToolFault::OutOfMemory));
    };
    let read = survey_captures(rt, &target, names.as_slice())?;
    let captures = Captures {
        surveys: read.surveys.as_slice(),
        names: names.as_slice(),
    };
    begin_planned(rt, report, words, &captures, read.digests.as_slice(), made)
}

/// Converts captures of one station; what the conversion is told is found in them.
#[inline(never)]
pub(crate) fn auto_captures<
    R: Env + Clock + Files + Input + Print + Eprint + AllocGlobal,
    W: Write + Drop,
>(rt: &R, report: W, words: &AutoWords<'_>, names: &[&str]) -> u8
    ensures { result ≤ NOT_VALID }
{
    let mut report = Unbroken::new(report);
    let work = match begin(rt, &mut report, words, names) {
        Ok(work) => work,
        Err(status) => return status,
    };
    match words.ways.output {
        Some(name) => convert_to_file(rt, work, report, name, &words.ways),
        None => convert_to_output(rt, work, report, &words.ways),
    }
}
