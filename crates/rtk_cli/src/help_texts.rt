//! What `--help` says after the options: examples, the exit statuses, and where the manual is.

pub(crate) const PROGRAM: &str = "\
Begin with:
  rtcm2rinex auto capture.rtcm -o base.rnx

Exit status:
  0  the work is done
  1  the work is not done; the last line on standard error says why
  2  the words are refused
  3  the file is not as convert writes it; of auto: the captures don't tell enough

Manual: man rtcm2rinex, or docs/MANUAL.md";

pub(crate) const AUTO: &str = "\
It reads each capture twice: first to find the station, the date, the MSM and the
codes of each system and the channels of GLONASS, then to convert. Standard error
has what was found, and the same command as words of convert. An option that is
given is not looked for.

A time is written as 2024-05-17T12:00:00.

Captures whose times follow one another are joined, so hours can be given in any
order; captures of the same time are links, and are merged.

Example:
  rtcm2rinex auto hour*.rtcm -o day.rnx --marker BASE
  rtcm2rinex auto capture.rtcm -o gps.rnx --systems G

Exit status:
  0  the file is written
  1  it is not, or in part; the last line on standard error says why
  2  the words are refused
  3  the captures don't tell enough, or have nothing to convert; standard error says why

Manual: man rtcm2rinex, or docs/MANUAL.md";

pub(crate) const CONVERT: &str = "\
A time is written as 2024-05-17T12:00:00, with no zone and no blank. A marker's
name has 1 to 60 printable characters of ASCII; the first and the last are no
blank.

Which codes:
  GPS      1C 1P 1W 1S 1L 1X 2C 2D 2P 2W 2S 2L 2X 5I 5Q 5X
  GLONASS  R1C R1P R2C R2P
  Galileo  E1C E1B E1X E6C E6B E6X E7I E7Q E7X E8I E8Q E8X E5I E5Q E5X
  BeiDou   C2I C2Q C2X C6I C6Q C6X C7I C7Q C7X C5D C5P C5X C7D C1D C1P C1X
  QZSS     J1C J6S J6L J6X J2S J2L J2X J5I J5Q J5X J1S J1L J1X
  SBAS     S1C S5I S5Q S5X
  NavIC    I5A
  These are codes and not observation types: 2X is of GPS, and C2X is of BeiDou.
  A system is converted if a code of it is listed.

Which MSM:
  --msm 7 converts 1077 in the place of 1074, and leaves 1074 out. Most stations
  that are bought today send 1077. summary tells which MSM a capture has.
  --msm 7,E4,C4 converts MSM7 of all systems, but MSM4 of Galileo and BeiDou.

Which channels:
  Codes of GLONASS need --channels, because a phase depends on the channel of its
  slot. A slot is 1 to 27, and a channel -7 to 6. A slot that is not listed has no
  phases, and with --channels none no slot has any.

Which messages of GLONASS:
  --with-1012 converts 1012 too, which old stations send beside 1004. A 1012 tells
  no day, so all messages must lie within half a day of --near.

Doppler:
  --doppler writes the Doppler of each code behind its phase. MSM5 and MSM7 tell
  it, so each system with a listed code must have one of them by --msm.

Example:
  rtcm2rinex convert --station 2003 --near 2024-05-17T12:00:00 \\
      --made 2024-05-17T13:00:00 --marker BASE --codes 1C,2W \\
      link1.rtcm link2.rtcm >base.rnx 2>base.report

Exit status:
  0  the file and its report are written
  1  they are not, or in part; the last line on standard error says why
  2  the words are refused

Manual: man rtcm2rinex, or docs/MANUAL.md";

pub(crate) const SHOW: &str = "\
Which MSM:
  Without --msm 1074 is shown, and all other MSM are as 1077 other. --msm 7 shows
  MSM7 of all systems, as 1077 and 1087, and 1074 is then 1074 other.
  --msm 7,E4,C4 shows MSM7 of all systems, but MSM4 of Galileo and BeiDou.

Example:
  rtcm2rinex show capture.rtcm
  rtcm2rinex show --msm 7 capture.rtcm

Exit status:
  0  the lines are written
  1  they are not, or in part; standard error says why
  2  the words are refused

Manual: man rtcm2rinex, or docs/MANUAL.md";

pub(crate) const CHECK: &str = "\
Example:
  rtcm2rinex check base.rnx

Exit status:
  0  the file is as convert writes it
  1  it was not checked; standard error says why
  2  the words are refused
  3  it is not as convert writes it; standard output has its first wrong line

Manual: man rtcm2rinex, or docs/MANUAL.md";

pub(crate) const SUMMARY: &str = "\
Example:
  rtcm2rinex summary capture.rtcm

Exit status:
  0  the lines are written
  1  they are not, or in part; standard error says why
  2  the words are refused

Manual: man rtcm2rinex, or docs/MANUAL.md";

pub(crate) const CHART: &str = "\
Example:
  rtcm2rinex chart base.rnx >base.svg
  rtcm2rinex chart --text --columns 120 base.rnx
  rtcm2rinex chart --satellites G05,G12 base.rnx >two.svg

Exit status:
  0  the picture is written
  1  it is not, or in part; standard error says why
  2  the words are refused
  3  the file is not as convert or label writes it, or has no chosen satellite

Manual: man rtcm2rinex, or docs/MANUAL.md";

pub(crate) const QUALITY: &str = "\
Example:
  rtcm2rinex quality base.rnx
  rtcm2rinex quality --json base.rnx >base.json

Exit status:
  0  the numbers are written
  1  they are not, or in part; standard error says why
  2  the words are refused
  3  the file is not as convert or label writes it; standard error says where

What the numbers do not say:
  Nothing of multipath and elevation.
  Slips are the receiver's own marks; nothing is computed from the phases.
  The percentage is of the passes that the file shows. teqc and Anubis take orbits
  in their place. A file that lacks half a day may have 100.0.

Manual: man rtcm2rinex, or docs/MANUAL.md";

pub(crate) const CUT: &str = "\
Example:
  rtcm2rinex cut --every 30 base.rnx >base_30s.rnx
  rtcm2rinex cut --from 2024-05-17T12:00:00 --until 2024-05-17T13:00:00 \\
      day.rnx >hour.rnx
  rtcm2rinex cut --systems GE day.rnx >gps_galileo.rnx

Exit status:
  0  the file is written
  1  it is not, or in part; standard error says why
  2  the words are refused
  3  the file is not as convert or label writes it, and standard error says where;
     or it has no codes of a system

Manual: man rtcm2rinex, or docs/MANUAL.md";

pub(crate) const LABEL: &str = "\
Which fields:
  Those that are not given are blank, also if an earlier label filled them.
  A line that is not asked for goes in the same way.

Example:
  rtcm2rinex label --agency 'Survey of Somewhere' --receiver-type 'LEICA GR50' \\
      --antenna-type 'LEIAR25.R3      LEIT' base.rnx >archive.rnx

Exit status:
  0  the file is written
  1  it is not, or in part; standard error says why
  2  the words are refused, or the file tells another height
  3  the file is not as convert or label writes it; standard error says where

Manual: man rtcm2rinex, or docs/MANUAL.md";

pub(crate) const COMPARE: &str = "\
Example:
  rtcm2rinex compare old.rnx new.rnx

Exit status:
  0  nothing is lost or changed
  1  the differences are not written, or in part; standard error says why
  2  the words are refused
  3  something is lost or changed; or a file is not as convert or label writes it,
     and standard error says where

Manual: man rtcm2rinex, or docs/MANUAL.md";
