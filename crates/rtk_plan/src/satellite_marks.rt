//! The satellites of each system that a file has, by their numbers.

ghost use Rattle.std.specs.Prelude.{◌≡◌, ◌<◌, count_by};
ghost use Rattle.rtk_plan.specs.SatelliteMarks as spec;

use rtk_message::System;

/// A satellite is marked at its number.
#[derive(Drop)]
pub struct SatelliteMarks {
    gps: [bool; 100],
    glonass: [bool; 100],
    galileo: [bool; 100],
    beidou: [bool; 100],
    qzss: [bool; 100],
    sbas: [bool; 100],
    navic: [bool; 100],
}

impl SatelliteMarks {
    /// No satellite is marked.
    pub(crate) fn new() -> SatelliteMarks {
        SatelliteMarks {
            gps: [false; 100],
            glonass: [false; 100],
            galileo: [false; 100],
            beidou: [false; 100],
            qzss: [false; 100],
            sbas: [false; 100],
            navic: [false; 100],
        }
    }

    /// Marks a satellite of the system with this letter, if there is one.
    pub(crate) fn mark(&mut self, letter: u8, satellite: u8)
        requires { satellite < 100 }
    {
        let place = usize::from(satellite);
        match letter {
            b'G' => self.gps[place] = true,
            b'R' => self.glonass[place] = true,
            b'E' => self.galileo[place] = true,
            b'C' => self.beidou[place] = true,
            b'J' => self.qzss[place] = true,
            b'S' => self.sbas[place] = true,
            b'I' => self.navic[place] = true,
            _ => {}
        }
    }

    /// How many satellites of a system are marked.
    pub(crate) fn count(&self, system: System) -> usize
        ensures { result ≡ spec.marked_count self.now system }
    {
        match system {
            System::Gps => count_marks(&self.gps),
            System::Glonass => count_marks(&self.glonass),
            System::Galileo => count_marks(&self.galileo),
            System::Beidou => count_marks(&self.beidou),
            System::Qzss => count_marks(&self.qzss),
            System::Sbas => count_marks(&self.sbas),
            System::Navic => count_marks(&self.navic),
        }
    }
}

// How many of these are marked.
fn count_marks(marks: &[bool]) -> usize
    ensures { result ≡ count_by spec.is_satellite_mark marks.now }
{
    marks.iter().filter(|mark| **mark).count()
}
