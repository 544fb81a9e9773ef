//! What `auto` says of the files that its words name, if it does not take them. It writes their names as
//! sh takes them, so that they can be pasted.

ghost use Rattle.std.specs.Prelude.{◌≡◌, ◌≤◌, IfOk, IsUtf8, string_bytes};
ghost use Rattle.rtk_message.specs.ShellText.{sh_quoted};
ghost use Rattle.rtk_commands.specs.declared.exit_status.TheConstants.{FAILED, REFUSED, NOT_VALID};

use rtk_commands::{FAILED, NOT_VALID, OutputFault, REFUSED, ToolFault, fail, fail_to_open};
use rtk_message::{System, put_sh_quoted};
use rtk_plan::WrittenFile;
use std::alloc::{AllocError, Global};

/// The systems in the order of a file, with their letters.
const IN_ORDER: [(System, &str); 7] = [
    (System::Gps, "G"),
    (System::Glonass, "R"),
    (System::Galileo, "E"),
    (System::Beidou, "C"),
    (System::Qzss, "J"),
    (System::Sbas, "S"),
    (System::Navic, "I"),
];

/// The name of a file as sh takes it.
pub(crate) fn quoted(alloc: Global, name: &str) -> Result<String, AllocError>
    ensures { IfOk result (λ text. IsUtf8 (sh_quoted name.now) → string_bytes text ≡ sh_quoted name.now) }
{
    let mut bytes = Vec::new(alloc);
    put_sh_quoted(&mut bytes, name.as_bytes())?;
    String::from_utf8_lossy(alloc, bytes.as_slice())
}

/// Says that there is no capture of this name. A name that files have which are written is taken for one
/// of them.
pub(crate) fn fail_to_find<R: Eprint + AllocGlobal>(rt: &R, name: &str) -> u8
    ensures { result ≡ FAILED }
{
    if !name.ends_with(".rnx") && !name.ends_with(".obs") {
        return fail_to_open(rt, name);
    }
    let Ok(name) = quoted(rt.alloc(), name) else {
        return fail(rt, ToolFault::OutOfMemory);
    };
    let _told = eprintln!(rt; "rtcm2rinex: cannot open {name}; to write it, say -o {name}");
    FAILED
}

/// Says that a capture is no regular file.
pub(crate) fn refuse_other<R: Eprint + AllocGlobal>(rt: &R, name: &str) -> u8
    ensures { result ≤ REFUSED }
{
    let Ok(name) = quoted(rt.alloc(), name) else {
        return fail(rt, ToolFault::OutOfMemory);
    };
    let _told = eprintln!(rt;
        "rtcm2rinex: auto reads each capture twice, and {name} is no regular file"
    );
    REFUSED
}

/// Says that a capture is named twice.
pub(crate) fn refuse_twice<R: Eprint + AllocGlobal>(rt: &R, name: &str) -> u8
    ensures { result ≤ REFUSED }
{
    let Ok(name) = quoted(rt.alloc(), name) else {
        return fail(rt, ToolFault::OutOfMemory);
    };
    let _told = eprintln!(rt; "rtcm2rinex: {name} is named twice");
    REFUSED
}

/// Says that a capture is not as it was when it was read first.
pub(crate) fn fail_differing<R: Eprint + AllocGlobal>(rt: &R, name: &str) -> u8
    ensures { result ≡ FAILED }
{
    let Ok(name) = quoted(rt.alloc(), name) else {
        return fail(rt, ToolFault::OutOfMemory);
    };
    let _told = eprintln!(rt; "rtcm2rinex: {name} has changed since it was read first");
    FAILED
}

/// Says that no record came, so that the file that has the name keeps it.
pub(crate) fn keep_named<R: Eprint + AllocGlobal>(rt: &R, name: &str) -> u8
    ensures { result ≤ NOT_VALID }
{
    let Ok(name) = quoted(rt.alloc(), name) else {
        return fail(rt, ToolFault::OutOfMemory);
    };
    let _told = eprintln!(rt; "rtcm2rinex: no record came; {name} stays as it was");
    NOT_VALID
}

// Says how many satellites a file has of each system that it has.
fn say_satellites<R: Eprint>(rt: &R, file: &WrittenFile) {
    for (system, letter) in IN_ORDER {
        let count = file.satellites_of(system);
        if count > 0 {
            let _told = eprint!(rt; " {letter} {count}");
        }
    }
}

/// Says what a file has that has its name now, which is shown so. The work is done, whether or not it can be
/// said.
pub(crate) fn say_written<R: Eprint>(rt: &R, name: &str, epochs: u64, file: &WrittenFile) {
    if epochs == 0 {
        let _told = eprintln!(rt; "wrote {name}: no epochs");
        return;
    }
    let _begun = eprint!(rt; "wrote {name}: {epochs} epochs,");
    say_satellites(rt, file);
    let _ended = eprintln!(rt; " satellites");
}

/// Says why a file does not get its name.
pub(crate) fn fail_output<R: Eprint + AllocGlobal>(rt: &R, name: &str, fault: OutputFault) -> u8
    ensures { result ≡ FAILED }
{
    let Ok(name) = quoted(rt.alloc(), name) else {
        return fail(rt, ToolFault::OutOfMemory);
    };
    let _told = match fault {
        OutputFault::IsThere => {
            eprintln!(rt; "rtcm2rinex: {name} is there, and -f would replace it")
        }
        OutputFault::NotRegular => eprintln!(rt; "rtcm2rinex: {name} is no regular file"),
        OutputFault::NotMade => eprintln!(rt; "rtcm2rinex: cannot write beside {name}"),
        OutputFault::NotWritten => return fail(rt, ToolFault::Output),
        OutputFault::OutOfMemory => return fail(rt, ToolFault::OutOfMemory),
    };
    FAILED
}
