//! What the words of a command line ask for, and why a command is not done.

use crate::code_lines::{codes_line, short_code_line};
use crate::rates_line::rates_line;
use rtk_commands::{Chart, Compare, KeptPart, Labelling};
use rtk_convert::Setup;
use rtk_cut::Part;
use rtk_label::LabelFault;
use rtk_message::System;
use rtk_obs::Code;
use rtk_plan::{Wanted, Ways};
use rtk_quality::Form;
use rtk_rinex::CreationTime;
use rtk_setup::SystemKinds;
use std::alloc::AllocError;

// How `--near` is written.
const FORM_OF_NEAR: &str =
    " --near takes YYYY-MM-DDTHH:MM:SS (GPS), from 1980-01-13T00:00:00 to 2099-12-31T23:59:59";

// How `--made` is written.
const FORM_OF_MADE: &str =
    " --made takes YYYY-MM-DDTHH:MM:SS (UTC), from 1980-01-06T00:00:00 to 2100-12-31T23:59:59";

/// What the words of `auto` say.
#[derive(Drop)]
pub struct AutoWords<'a> {
    /// The values of the conversion.
    pub wanted: Wanted,
    /// The moment at which the file is made; `None` is the present.
    pub made: Option<CreationTime>,
    /// The captures, the file and the report.
    pub ways: Ways<'a>,
}

/// What the words ask for. A capture, a link or a file is given by its name; `stdin` is standard input.
#[derive(Drop)]
pub enum Job<'a> {
    /// Captures of one station go to a file; what `convert` wants to be told is found in them.
    Auto {
        options: AutoWords<'a>,
        captures: Vec<&'a str>,
    },
    /// Captures of one station go to a file and a report.
    Convert {
        setup: Setup,
        /// 1 to 16 links, standard input once at most.
        links: Vec<&'a str>,
    },
    /// The lines of a capture, one for each frame.
    Show {
        /// The capture is hex text.
        hex: bool,
        file: &'a str,
    },
    /// The lines of a capture, one for each frame, by the MSM of chosen kinds.
    ShowMsm {
        /// The capture is hex text.
        hex: bool,
        /// The MSM of these kinds are read, and no others.
        kinds: SystemKinds,
        file: &'a str,
    },
    /// Whether a text is one of this project's files.
    Check {
        file: &'a str,
    },
    /// What a capture holds.
    Summary {
        file: &'a str,
    },
    /// A picture of a file.
    Chart {
        chart: Chart,
        file: &'a str,
    },
    /// The numbers of a file.
    Quality {
        form: Form,
        file: &'a str,
    },
    /// A part of a file.
    Cut {
        part: Part,
        file: &'a str,
    },
    /// A part of a file with some of its systems alone.
    CutSystems {
        command: KeptPart,
        file: &'a str,
    },
    /// A file with more fields in its header.
    Label {
        labelling: Labelling,
        file: &'a str,
    },
    /// What a new file lacks of an old one. Standard input is one of them at most.
    Compare {
        command: Compare,
        old: &'a str,
        new: &'a str,
    },
}

/// Why words that clap takes give no conversion, no picture, no part, no label or no comparison: the first cause that
/// holds, in this order; but that no time is dated near the reference is found last.
#[derive(Clone, Copy)]
pub(crate) enum BadWords {
    /// The reference is written in another form, or there is no such moment, or times can't be
    /// dated near it.
    Near,
    /// The same in words of `auto`, which says in a second line how the time is written.
    NearOfAuto,
    /// The time of making is written in another form, or there is no such moment.
    Made,
    /// The same in words of `auto`, with a second line too.
    MadeOfAuto,
    /// A name is no observation code. Or, once the marker is known to be good: a code stands twice.
    Codes,
    /// A name of three characters begins with the letter of this system, and is no observation code.
    CodeOfSystem(System),
    /// A name is that of a code of GPS behind the letter of GPS.
    CodeOfGps(Code),
    /// The marker's name does not have 1 to 60 printable characters of ASCII, or the first or the
    /// last one is a blank.
    Marker,
    /// The channels of GLONASS are written in another form, a slot or a channel doesn't exist, or a slot
    /// stands twice. Or `convert` has no code of GLONASS.
    Channels,
    /// There are codes of GLONASS, and no channels.
    NoChannels,
    /// The 1012 are to be converted, and there is no code of GLONASS.
    NoGlonass,
    /// The file is to show Doppler shifts, and the MSM of this system, of which a code is listed, has no range rates.
    NoRates(System),
    /// The links are not 1 to 16, or standard input stands twice.
    Links,
    /// A letter is that of no system, or there is none.
    Systems,
    /// A name is that of no satellite.
    Satellites,
    /// The begin of a part is written in another form, or there is no such moment.
    From,
    /// The end of a part is written in another form, or there is no such moment, or it is before the
    /// begin.
    Until,
    /// A field of a label does not fit its columns.
    Field(LabelFault),
    /// Both files of a comparison are standard input.
    Files,
}

impl BadWords {
    ghost use Rattle.std.specs.Prelude.{◌≡◌};
    ghost use Rattle.std.specs.Option.{option_map};
    ghost use Rattle.rtk_cli.specs.FaultLines.{fault_line, second_line};

    /// The fault line of the program.
    pub(crate) fn line(self) -> &'static str
        ensures { result.now ≡ fault_line self }
    {
        match self {
            BadWords::Near | BadWords::NearOfAuto => "bad --near",
            BadWords::Made | BadWords::MadeOfAuto => "bad --made",
            BadWords::Codes | BadWords::CodeOfSystem(_) | BadWords::CodeOfGps(_) => "bad --codes",
            BadWords::Marker => "bad --marker",
            BadWords::Channels => "bad --channels",
            BadWords::NoChannels => "R codes need --channels",
            BadWords::NoGlonass => "--with-1012 needs R codes",
            BadWords::NoRates(system) => rates_line(system),
            BadWords::Links => "bad links",
            BadWords::Systems => "bad --systems",
            BadWords::Satellites => "bad --satellites",
            BadWords::From => "bad --from",
            BadWords::Until => "bad --until",
            BadWords::Field(LabelFault::RunBy) => "bad --run-by",
            BadWords::Field(LabelFault::MarkerNumber) => "bad --marker-number",
            BadWords::Field(LabelFault::Observer) => "bad --observer",
            BadWords::Field(LabelFault::Agency) => "bad --agency",
            BadWords::Field(LabelFault::ReceiverNumber) => "bad --receiver-number",
            BadWords::Field(LabelFault::ReceiverType) => "bad --receiver-type",
            BadWords::Field(LabelFault::ReceiverVersion) => "bad --receiver-version",
            BadWords::Field(LabelFault::AntennaNumber) => "bad --antenna-number",
            BadWords::Field(LabelFault::AntennaType) => "bad --antenna-type",
            BadWords::Field(LabelFault::DeltaHeight) => "bad --delta-height",
            BadWords::Field(LabelFault::DeltaEast) => "bad --delta-east",
            BadWords::Field(LabelFault::DeltaNorth) => "bad --delta-north",
            BadWords::Files => "bad files",
        }
    }

    /// The line that follows the fault line, if one does.
    pub(crate) fn second_line(self) -> Option<&'static str>
        ensures { option_map (λ line. line.now) result ≡ second_line self }
    {
        match self {
            BadWords::NearOfAuto => Some(FORM_OF_NEAR),
            BadWords::MadeOfAuto => Some(FORM_OF_MADE),
            BadWords::CodeOfSystem(system) => Some(codes_line(system)),
            BadWords::CodeOfGps(code) => Some(short_code_line(code)),
            _ => None,
        }
    }
}

/// Why the words give no job.
#[derive(Debug, Drop)]
pub enum WordsFault {
    /// clap answers with a text of its own: asked-for help or the version (status 0), or a refusal
    /// (status 2).
    Clap {
        /// The whole text, with its line ends.
        text: String,
        /// The exit status of the program.
        status: u8,
    },
    /// Words that clap takes give no conversion, no picture, no part, no label or no comparison (status 2).
    Bad {
        /// The fault line, as `bad --near`.
        line: &'static str,
        /// The line that follows the fault line, as `codes of R: 1C 1P 2C 2P`, if one does.
        more: Option<&'static str>,
    },
    /// No memory for reading the words.
    OutOfMemory,
}

impl From<BadWords> for WordsFault {
    ghost use Rattle.rtk_cli.specs.FaultLines.{TellsCause};

    ghost from_gives = { TellsCause };

    fn from(cause: BadWords) -> WordsFault {
        WordsFault::Bad {
            line: cause.line(),
            more: cause.second_line(),
        }
    }
}

impl From<AllocError> for WordsFault {
    ghost use Rattle.std.specs.Prelude.{◌≡◌};
    ghost use Rattle.rtk_cli.specs.declared.words.WordsFault.TheVariants.{OutOfMemory};

    ghost from_gives = { λ _ fault. fault ≡ OutOfMemory };

    fn from(_refused: AllocError) -> WordsFault {
        WordsFault::OutOfMemory
    }
}
