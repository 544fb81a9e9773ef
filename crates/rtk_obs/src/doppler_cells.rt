//! The cells of messages of any system with their Doppler shifts.

ghost use Rattle.std.specs.Prelude.{◌≡◌};
ghost use Rattle.rtk_message.specs.MsmForm.{IsValid};
ghost use Rattle.rtk_obs.specs.Doppler.{doppler_entries};

use crate::any_code::AnyCode;
use crate::carrier::Channels;
use crate::doppler::{doppler, fine_rate_at, rough_rate_at};
use crate::msm_cells::set_values;
use crate::msm_values::rough_range;
use crate::satellite_index::satellite_in;
use crate::signal_cells::{SignalEntry, channel_in, field_of_row};
use crate::signal_rows::{SignalRow, SignalsOfMsm, put_entries};
use arrayvec::ArrayVec;
use rtk_message::{Msm, MsmHeader, System};

/// A message with the channels by which its phases and its Doppler shifts are made.
#[derive(Clone, Copy)]
struct WithDoppler<'a> {
    message: &'a Msm,
    channels: &'a Channels,
}

impl<'a> SignalsOfMsm for WithDoppler<'a> {
    ghost use Rattle.rtk_message.specs.MsmForm.{IsValid};
    ghost use Rattle.rtk_obs.specs.Doppler.{doppler_entry};
    ghost use Rattle.rtk_obs.specs.Steps.SignalRows.{IsDopplerRow};

    ghost IsValid = { λ s. IsValid s.message.now };

    ghost system = { λ s. s.message.now.system };

    ghost header = { λ s. s.message.now.header };

    ghost cell_mask = { λ s. s.message.now.cell_mask };

    ghost entry_of = { λ s. doppler_entry s.channels.now s.message.now };

    ghost IsRow = { λ s. IsDopplerRow s.channels.now s.message.now };

    fn own_system(&self) -> System {
        self.message.system
    }

    fn mask_header(&self) -> MsmHeader {
        self.message.header
    }

    fn cell_count(&self) -> usize {
        self.message.fine_range.len()
    }

    fn mask_rows(&self) -> &[u32] {
        self.message.cell_mask.as_slice()
    }

    fn row(&self, place: usize, bit: u8) -> Option<SignalRow> {
        let Some(satellite) = satellite_in(self.message.system, bit) else {
            return None;
        };
        let field = field_of_row(self.message, place);
        Some(SignalRow {
            satellite,
            rough: rough_range(
                self.message.rough_ms.as_slice()[place],
                self.message.rough_fraction.as_slice()[place],
            ),
            channel: channel_in(self.message.system, self.channels, bit, field),
            rough_rate: rough_rate_at(self.message, place),
        })
    }

    #[inline(always)]
    fn set_entry(
        &self,
        entry: &mut SignalEntry,
        cell: usize,
        row: &SignalRow,
        signal: Option<AnyCode>,
    ) -> bool {
        let Some(code) = signal else {
            return false;
        };
        let frequency = code.carrier().frequency(row.channel);
        let fine = fine_rate_at(self.message, cell);
        let shift = doppler(frequency, row.rough_rate, fine);
        entry.satellite = row.satellite;
        entry.code = code;
        entry.doppler_millihertz = shift;
        set_values(self.message, &mut entry.cell, cell, row.rough, frequency);
        true
    }
}

/// Puts the cells of a message into a list, in place of what it has, as `put_signal_entries` gives them, each with its
/// Doppler shift. A satellite of GLONASS has shifts if its slot has a channel, and the message tells no other one.
pub fn put_doppler_entries(
    message: &Msm,
    channels: &Channels,
    found: &mut ArrayVec<SignalEntry, 64>,
)
    requires { IsValid message.now }
    ensures { found.new.items ≡ doppler_entries channels.now message.now }
{
    put_entries(found, &WithDoppler { message, channels });
}
