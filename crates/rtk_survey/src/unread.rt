//! The payloads that are not read, by fault and message number.

ghost use Rattle.std.specs.Prelude.{◌≡◌, ◌≢◌, ◌+◌, ℕ, List, [], ◌∷◌, OnOk};
ghost use Rattle.rtk_message.specs.declared.any_fault.AnyFault.{AnyFault};
ghost use Rattle.rtk_survey.specs.Counting.{shown_count};
ghost use Rattle.rtk_survey.specs.Contents.{CountsFaults, count_at};

use rtk_message::AnyFault;
use std::alloc::{AllocError, Global};
use std::collections::BTreeMap;

/// How many payloads there are of each fault; the maps have an entry for each message number that came.
#[derive(Drop)]
pub struct Unread {
    pub no_number: u64,
    pub others: BTreeMap<u16, u64>,
    pub short: BTreeMap<u16, u64>,
    pub outside_week: BTreeMap<u16, u64>,
    pub too_many_cells: BTreeMap<u16, u64>,
}

/// The count of a number.
pub fn count_of_number(counts: &BTreeMap<u16, u64>, number: u16) -> u64
    ensures { result ≡ count_at counts.now number }
{
    counts.get(&number).copied().unwrap_or(0)
}

/// Counts one more of this number.
pub(crate) fn count_number(counts: &mut BTreeMap<u16, u64>, number: u16) -> Result<(), AllocError>
    ensures own { OnOk result (count_at counts.new number ≡ shown_count (count_at counts.old number + 1)) }
    ensures others { OnOk result ((n : ℕ) → n ≢ number → count_at counts.new n ≡ count_at counts.old n) }
{
    let count = counts.entry(number)?.or_insert(0);
    *count = count.saturating_add(1);
    Ok(())
}

impl Unread {
    /// Nothing came.
    pub fn new(alloc: Global) -> Unread
        ensures { CountsFaults result [] }
    {
        Unread {
            no_number: 0,
            others: BTreeMap::new(alloc),
            short: BTreeMap::new(alloc),
            outside_week: BTreeMap::new(alloc),
            too_many_cells: BTreeMap::new(alloc),
        }
    }

    /// Counts a fault.
    pub fn count_fault(&mut self, fault: AnyFault) -> Result<(), AllocError>
        ensures { OnOk result ((fs : List AnyFault) → CountsFaults self.old fs → CountsFaults self.new (fault ∷ fs)) }
    {
        match fault {
            AnyFault::NoNumber => {
                self.no_number = self.no_number.saturating_add(1);
                Ok(())
            }
            AnyFault::Other { number } => count_number(&mut self.others, number),
            AnyFault::Short { number } => count_number(&mut self.short, number),
            AnyFault::EpochRange { number } => count_number(&mut self.outside_week, number),
            AnyFault::TooManyCells { number } => count_number(&mut self.too_many_cells, number),
        }
    }
}
