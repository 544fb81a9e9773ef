//! What happens to satellites: outages, runs of half cycles, and hours with several slips.

ghost use Rattle.std.specs.Prelude.{◌≡◌, ◌++◌, ◌∷◌, [], List, OnOk};
ghost use Rattle.rtk_quality.specs.Largest.{list_of, AreLargest};
ghost use Rattle.rtk_quality.specs.Outages.{outage_of, size_of_outage};
ghost use Rattle.rtk_quality.specs.Runs.{half_run, size_of_run};
ghost use Rattle.rtk_quality.specs.Bursts.{burst_of, size_of_burst};
ghost use Rattle.rtk_quality.specs.declared.outages.Outage.{Outage};
ghost use Rattle.rtk_quality.specs.declared.runs.HalfRun.{HalfRun};
ghost use Rattle.rtk_quality.specs.declared.bursts.Burst.{Burst};

use crate::bursts::{Burst, burst_of};
use crate::largest::Largest;
use crate::outages::{Outage, outage_of};
use crate::runs::{HalfRun, half_run};
use crate::satellite_counts::RowNotes;
use rtk_obs::SatelliteIndex;
use std::alloc::{AllocError, Global};

/// What happened so far.
#[derive(Drop)]
pub(crate) struct Events {
    pub(crate) outages: Largest<Outage>,
    pub(crate) runs: Largest<HalfRun>,
    pub(crate) bursts: Largest<Burst>,
}

impl Events {
    /// In a file without records.
    pub(crate) fn new(alloc: Global) -> Events
        ensures outages { AreLargest size_of_outage result.outages [] }
        ensures runs { AreLargest size_of_run result.runs [] }
        ensures bursts { AreLargest size_of_burst result.bursts [] }
    {
        Events {
            outages: Largest::new(alloc),
            runs: Largest::new(alloc),
            bursts: Largest::new(alloc),
        }
    }

    /// Notes what ended with a row of a satellite.
    pub(crate) fn note_row(
        &mut self,
        satellite: SatelliteIndex,
        notes: &RowNotes,
    ) -> Result<(), AllocError>
        ensures outages { OnOk result ((all : List Outage) → AreLargest size_of_outage self.old.outages all
            → AreLargest size_of_outage self.new.outages (all ++ list_of (outage_of satellite notes.now.absence))) }
        ensures runs { OnOk result ((all : List HalfRun) → AreLargest size_of_run self.old.runs all
            → AreLargest size_of_run self.new.runs (all ++ list_of (half_run satellite notes.now.run))) }
        ensures bursts { OnOk result ((all : List Burst) → AreLargest size_of_burst self.old.bursts all
            → AreLargest size_of_burst self.new.bursts (all ++ list_of (burst_of satellite notes.now.hour))) }
    {
        self.outages
            .note_if_any(outage_of(satellite, notes.absence))?;
        self.runs.note_if_any(half_run(satellite, notes.run))?;
        self.bursts.note_if_any(burst_of(satellite, notes.hour))?;
        Ok(())
    }
}
