//! The strengths of bands along the time of a picture.

ghost use Rattle.std.specs.Prelude.{◌≡◌, List, ◌∷◌, length, IfOk};
ghost use Rattle.rtk_rinex.specs.Record.{EpochTableView};
ghost use Rattle.rtk_chart.specs.Scale.{IsScale};
ghost use Rattle.rtk_chart.specs.Means.{number_of, bands_of, of_band, no_strengths, all_without, mean_of, mean_at, columns_of};
ghost use Rattle.rtk_chart.specs.Steps.Added.{with_one, with_strength, with_strength_if, with_row, with_rows};

use crate::scale::Scale;
use rtk_obs::{Band, Code};
use rtk_rinex::{EpochTable, Observed, SatelliteRow};
use std::alloc::{AllocError, Global};

/// The most columns of strengths in a picture. Columns as short as its bins would show the noise of single
/// strengths; those of a day are ten minutes long.
pub(crate) const MOST_COLUMNS: usize = 144;

// The greatest strength that there is, in thousandths of a dB-Hz.
const GREATEST: u64 = 63_750;

/// How many strengths there are, and their sum in thousandths of a dB-Hz.
#[derive(Clone, Copy)]
pub(crate) struct BandStrengths {
    pub(crate) count: u64,
    pub(crate) sum: u64,
}

/// The strengths of each band.
#[derive(Clone, Copy)]
pub(crate) struct Strengths {
    pub(crate) l1: BandStrengths,
    pub(crate) l2: BandStrengths,
    pub(crate) l5: BandStrengths,
}

/// The number of a band in the names of codes.
pub(crate) fn number_of(band: Band) -> u64
    ensures { result ≡ number_of band }
{
    match band {
        Band::L1 => 1,
        Band::L2 => 2,
        Band::L5 => 5,
    }
}

impl BandStrengths {
    // Of no strength.
    fn none() -> BandStrengths
        ensures { result ≡ no_strengths }
    {
        BandStrengths { count: 0, sum: 0 }
    }

    // With one more, if it is there. Numbers that no file reaches stay at the greatest one of their type.
    fn with(self, strength: Option<u32>) -> BandStrengths
        ensures { result ≡ with_one self strength }
    {
        match strength {
            Some(strength) => BandStrengths {
                count: self.count.saturating_add(1),
                sum: self.sum.saturating_add(u64::from(strength)),
            },
            None => self,
        }
    }

    // Their mean, if there are any.
    fn mean(self) -> Option<u16>
        ensures { result ≡ mean_of self }
    {
        if self.count == 0 {
            return None;
        }
        Some((self.sum / self.count).min(GREATEST) as u16)
    }
}

impl Strengths {
    /// Of no record.
    pub(crate) fn none() -> Strengths
        ensures { result ≡ all_without }
    {
        let none = BandStrengths::none();
        Strengths {
            l1: none,
            l2: none,
            l5: none,
        }
    }

    // Those of a band.
    fn of(&self, band: Band) -> BandStrengths
        ensures { result ≡ of_band band self.now }
    {
        match band {
            Band::L1 => self.l1,
            Band::L2 => self.l2,
            Band::L5 => self.l5,
        }
    }

    /// The mean of a band, if it has a strength.
    pub(crate) fn mean_at(&self, band: Band) -> Option<u16>
        ensures { result ≡ mean_at band self.now }
    {
        self.of(band).mean()
    }

    // Adds the strength of a band, if it is there.
    fn add(&mut self, band: Band, strength: Option<u32>)
        ensures { self.new ≡ with_strength band strength self.old }
    {
        match band {
            Band::L1 => self.l1 = self.l1.with(strength),
            Band::L2 => self.l2 = self.l2.with(strength),
            Band::L5 => self.l5 = self.l5.with(strength),
        }
    }

    // The same, if the code has a band.
    fn add_if(&mut self, band: Option<Band>, strength: Option<u32>)
        ensures { self.new ≡ with_strength_if band strength self.old }
    {
        if let Some(band) = band {
            self.add(band, strength);
        }
    }

    // Adds the strengths of a satellite, whose codes have these bands.
    fn add_row(&mut self, bands: &[Option<Band>], observed: &[Observed])
        ensures { self.new ≡ with_row bands.now observed.now self.old }
    {
        for place in 0..bands.len().min(observed.len()) {
            self.add_if(bands[place], observed[place].strength_millidbhz);
        }
    }

    // Adds the strengths of the rows of a record.
    fn add_rows(&mut self, bands: &[Option<Band>], rows: &[SatelliteRow])
        ensures { self.new ≡ with_rows bands.now rows.now self.old }
    {
        for row in rows {
            self.add_row(bands, row.observed.as_slice());
        }
    }
}

/// The bands of codes of GPS.
pub(crate) fn bands_of(alloc: Global, codes: &[Code]) -> Result<Vec<Option<Band>>, AllocError>
    ensures { IfOk result (λ bands. bands.items ≡ bands_of codes.now) }
{
    let mut bands = Vec::new(alloc);
    for code in codes {
        bands.push(Some(code.band()))?;
    }
    Ok(bands)
}

/// Adds the strengths of a record to those of its column.
pub(crate) fn note_strengths(
    columns: &mut Vec<Strengths>,
    scale: &Scale,
    bands: &[Option<Band>],
    epoch: &EpochTable,
)
    requires { IsScale scale.now }
    ensures { (es : List EpochTableView) → columns.old.items ≡ columns_of scale.now bands.now es
        → columns.new.items ≡ columns_of scale.now bands.now (epoch.now ∷ es) }
{
    let bin = scale.bin_at(epoch.time().ms());
    let place = (bin / scale.bins_per_column()) as usize;
    if place < columns.len() {
        columns[place].add_rows(bands, epoch.rows());
    }
}
