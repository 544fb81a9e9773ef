//! The example file: its header, and the two lines of its record.

/// The header: marker BASE, codes 1C and 2W.
pub const HEADER: &str = concat!(
    "     3.05           OBSERVATION DATA    G                   RINEX VERSION / TYPE\n",
    "rtcm2rinex                              20240517 130000 UTC PGM / RUN BY / DATE \n",
    "BASE                                                        MARKER NAME         \n",
    "GEODETIC                                                    MARKER TYPE         \n",
    "                                                            OBSERVER / AGENCY   \n",
    "                                                            REC # / TYPE / VERS \n",
    "                                                            ANT # / TYPE        \n",
    "  1114104.5999 -4850729.7108  3975521.4643                  APPROX POSITION XYZ \n",
    "        0.0000        0.0000        0.0000                  ANTENNA: DELTA H/E/N\n",
    "G    6 C1C L1C S1C C2W L2W S2W                              SYS / # / OBS TYPES \n",
    "DBHZ                                                        SIGNAL STRENGTH UNIT\n",
    "  2024     5    17    12     0    0.0000000     GPS         TIME OF FIRST OBS   \n",
    "G                                                           SYS / PHASE SHIFT   \n",
    "                                                            END OF HEADER       \n",
);

/// The line of its epoch.
pub const EPOCH_LINE: &str = "> 2024 05 17 12 00  0.0000000  0  1\n";

/// The line of its one satellite: pseudorange, carrier phase and C/N0 of two codes.
pub const SATELLITE_LINE: &str =
    "G05  21085472.060 7 110804903.547 7        45.000    21085474.060 5  86341483.283 5        35.000\n";
