//! What a file looks like that has no frame.

ghost use Rattle.std.specs.Prelude.{◌≡◌, nat_eq, drop};
ghost use Rattle.std.specs.List.{list_all, starts_with};
ghost use Rattle.rtk_survey.specs.Look as spec;

/// What a file looks like, by its first bytes.
#[derive(Clone, Copy, Debug, PartialEq, Eq)]
pub enum Look {
    /// It has no byte.
    Empty,
    Gzip,
    Bzip2,
    Xz,
    Zip,
    /// Messages of a u-blox receiver, without RTCM.
    Ublox,
    /// Blocks of a Septentrio receiver, the Septentrio Binary Format.
    Sbf,
    /// Logs of a NovAtel receiver.
    NovAtel,
    /// Messages of a receiver of JAVAD or Topcon, in a JPS file.
    Jps,
    /// A file of RINEX or of Compact RINEX.
    Rinex,
    /// Sentences of NMEA 0183, without RTCM.
    Nmea,
    /// Hex text, which `show --hex` reads.
    HexText,
    /// None of these.
    Unknown,
}

fn is_between(least: u8, greatest: u8, byte: u8) -> bool
    ensures { result ≡ spec.is_between least greatest byte }
{
    least <= byte && byte <= greatest
}

fn is_capital(byte: u8) -> bool
    ensures { result ≡ spec.is_capital byte }
{
    is_between(b'A', b'Z', byte)
}

fn is_hex_digit(byte: u8) -> bool
    ensures { result ≡ spec.is_hex_digit byte }
{
    is_between(b'0', b'9', byte) || is_between(b'A', b'F', byte) || is_between(b'a', b'f', byte)
}

fn is_hex_text(byte: u8) -> bool
    ensures { result ≡ spec.is_hex_text byte }
{
    is_hex_digit(byte) || byte == b' ' || byte == b'\r' || byte == b'\n'
}

// The first line has this label behind its first 60 columns.
fn has_label(head: &[u8], label: &[u8]) -> bool
    ensures { result ≡ starts_with nat_eq (drop 60 head.now) label.now }
{
    let columns = head.len().min(60);
    head[columns..].starts_with(label)
}

fn is_rinex(head: &[u8]) -> bool
    ensures { result ≡ spec.is_rinex head.now }
{
    has_label(head, b"RINEX VERSION / TYPE") || has_label(head, b"CRINEX VERS   / TYPE")
}

fn is_nmea(head: &[u8]) -> bool
    ensures { result ≡ spec.is_nmea head.now }
{
    head.len() > 2
        && (head[0] == b'$' || head[0] == b'!')
        && is_capital(head[1])
        && is_capital(head[2])
}

fn all_hex_text(bytes: &[u8]) -> bool
    ensures { result ≡ list_all spec.is_hex_text bytes.now }
{
    bytes.iter().all(|byte| is_hex_text(*byte))
}

// The first 64 bytes are hex text.
fn are_hex_text(head: &[u8]) -> bool
    ensures { result ≡ spec.are_hex_text head.now }
{
    let few = head.len().min(64);
    all_hex_text(&head[..few])
}

fn is_hex(head: &[u8]) -> bool
    ensures { result ≡ spec.is_hex head.now }
{
    !head.is_empty() && is_hex_digit(head[0]) && are_hex_text(head)
}

// What a text looks like, or bytes that no mark begins.
fn look_of_text(head: &[u8]) -> Look
    ensures { result ≡ spec.look_of_text head.now }
{
    if is_rinex(head) {
        return Look::Rinex;
    }
    if is_nmea(head) {
        return Look::Nmea;
    }
    if is_hex(head) {
        return Look::HexText;
    }
    Look::Unknown
}

// What the file of a receiver looks like, or a text.
fn look_of_receiver(head: &[u8]) -> Look
    ensures { result ≡ spec.look_of_receiver head.now }
{
    if head.starts_with(b"\xB5\x62") {
        return Look::Ublox;
    }
    if head.starts_with(b"$@") {
        return Look::Sbf;
    }
    if head.starts_with(b"\xAA\x44\x12") || head.starts_with(b"\xAA\x44\x13") {
        return Look::NovAtel;
    }
    if head.starts_with(b"JP055") {
        return Look::Jps;
    }
    look_of_text(head)
}

/// What a file looks like that begins with these bytes: all of it, or the first 512 at least.
pub fn look_of(head: &[u8]) -> Look
    ensures { result ≡ spec.look_of head.now }
{
    if head.is_empty() {
        return Look::Empty;
    }
    if head.starts_with(b"\x1F\x8B") {
        return Look::Gzip;
    }
    if head.starts_with(b"BZh") {
        return Look::Bzip2;
    }
    if head.starts_with(b"\xFD7zXZ\x00") {
        return Look::Xz;
    }
    if head.starts_with(b"PK\x03\x04") {
        return Look::Zip;
    }
    look_of_receiver(head)
}

impl Look {
    /// The name of it, as a summary shows it.
    pub fn name(self) -> &'static [u8]
        ensures { result.now ≡ spec.look_name self }
    {
        match self {
            Look::Empty => b"empty",
            Look::Gzip => b"gzip",
            Look::Bzip2 => b"bzip2",
            Look::Xz => b"xz",
            Look::Zip => b"zip",
            Look::Ublox => b"u-blox",
            Look::Sbf => b"SBF",
            Look::NovAtel => b"NovAtel",
            Look::Jps => b"JPS",
            Look::Rinex => b"RINEX",
            Look::Nmea => b"NMEA",
            Look::HexText => b"hex-text",
            Look::Unknown => b"unknown",
        }
    }
}
