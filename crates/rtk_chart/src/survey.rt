//! A first look at the records of a file: how many, and the steps between them.

ghost use Rattle.std.specs.Prelude.{◌≡◌, List, [], ◌∷◌, OnOk};
ghost use Rattle.rtk_rinex.specs.Record.{EpochTableView};
ghost use Rattle.rtk_chart.specs.Steps.Standing.{StandsForSurvey};

use rtk_obs::GpsMs;
use rtk_rinex::EpochTable;
use rtk_tracking::StepCounts;
use std::alloc::{AllocError, Global};

/// What is known of the records that were looked at.
#[derive(Drop)]
pub(crate) struct Survey {
    pub(crate) records: u64,
    pub(crate) steps: StepCounts,
}

impl Survey {
    /// No record was looked at.
    pub(crate) fn new(alloc: Global) -> Survey
        ensures { StandsForSurvey result [] }
    {
        Survey {
            records: 0,
            steps: StepCounts::new(alloc),
        }
    }

    /// Counts one more record, which is at this moment.
    pub(crate) fn count_moment(&mut self, time: GpsMs) -> Result<(), AllocError>
        ensures { OnOk result ((es : List EpochTableView) (e : EpochTableView) → e.time ≡ time → StandsForSurvey self.old es
            → StandsForSurvey self.new (e ∷ es)) }
    {
        self.steps.note_time(time)?;
        self.records = self.records.saturating_add(1);
        Ok(())
    }

    /// Counts one more record.
    pub(crate) fn count_record(&mut self, epoch: &EpochTable) -> Result<(), AllocError>
        ensures { OnOk result ((es : List EpochTableView) → StandsForSurvey self.old es → StandsForSurvey self.new (epoch.now ∷ es)) }
    {
        self.steps.note_epoch(epoch)?;
        self.records = self.records.saturating_add(1);
        Ok(())
    }
}
