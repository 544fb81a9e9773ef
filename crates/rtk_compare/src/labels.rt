//! The labels of two files.

ghost use Rattle.std.specs.Prelude.{◌≡◌, nat_lt, length};
ghost use Rattle.rtk_compare.specs.Differences.{Adds};
ghost use Rattle.rtk_compare.specs.Labels.{field_lines, label_lines_of_station, label_lines_of_receiver, label_lines_of_antenna, label_lines};

use crate::difference::What;
use crate::findings::Findings;
use crate::headers::{Having, is_same_text};
use rtk_label::{Label, LabelParts};

// Is a field filled? An empty text is a blank one.
fn is_filled(field: &[u8]) -> bool
    ensures { result ≡ nat_lt 0 (length field.now) }
{
    field.len() != 0
}

// Compares a field of two labels.
fn compare_field(what: What, old: &[u8], new: &[u8], findings: &mut Findings)
    ensures { Adds findings.old findings.new (field_lines what old.now new.now) }
{
    let was = is_filled(old);
    let is = is_filled(new);
    let is_same = is_same_text(old, new);
    let field = Having { was, is, is_same };
    field.put(what, findings);
}

// Compares what two labels say of the station.
fn compare_station(old: &LabelParts<'_>, new: &LabelParts<'_>, findings: &mut Findings)
    ensures { Adds findings.old findings.new (label_lines_of_station old.now new.now) }
{
    compare_field(What::RunBy, old.run_by, new.run_by, findings);
    compare_field(
        What::MarkerNumber,
        old.marker_number,
        new.marker_number,
        findings,
    );
    compare_field(What::Observer, old.observer, new.observer, findings);
    compare_field(What::Agency, old.agency, new.agency, findings);
}

// Compares what two labels say of the receiver.
fn compare_receiver(old: &LabelParts<'_>, new: &LabelParts<'_>, findings: &mut Findings)
    ensures { Adds findings.old findings.new (label_lines_of_receiver old.now new.now) }
{
    compare_field(
        What::ReceiverNumber,
        old.receiver_number,
        new.receiver_number,
        findings,
    );
    compare_field(
        What::ReceiverType,
        old.receiver_type,
        new.receiver_type,
        findings,
    );
    compare_field(
        What::ReceiverVersion,
        old.receiver_version,
        new.receiver_version,
        findings,
    );
}

// Compares what two labels say of the antenna.
fn compare_antenna(old: &LabelParts<'_>, new: &LabelParts<'_>, findings: &mut Findings)
    ensures { Adds findings.old findings.new (label_lines_of_antenna old.now new.now) }
{
    compare_field(
        What::AntennaNumber,
        old.antenna_number,
        new.antenna_number,
        findings,
    );
    compare_field(
        What::AntennaType,
        old.antenna_type,
        new.antenna_type,
        findings,
    );
    compare_field(What::DeltaHeight, old.height, new.height, findings);
    compare_field(What::DeltaEast, old.east, new.east, findings);
    compare_field(What::DeltaNorth, old.north, new.north, findings);
}

// Adds the differences of the texts of two labels.
fn compare_parts(old: &LabelParts<'_>, new: &LabelParts<'_>, findings: &mut Findings)
    ensures { Adds findings.old findings.new (label_lines old.now new.now) }
{
    compare_station(old, new, findings);
    compare_receiver(old, new, findings);
    compare_antenna(old, new, findings);
}

/// Adds the differences of two labels.
pub fn compare_labels(old: &Label, new: &Label, findings: &mut Findings)
    ensures { Adds findings.old findings.new (label_lines old.now new.now) }
{
    let old_parts = old.parts();
    let new_parts = new.parts();
    compare_parts(&old_parts, &new_parts, findings);
}
