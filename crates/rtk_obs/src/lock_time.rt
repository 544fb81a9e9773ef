//! Least lock times of the lock time indicators.

ghost use Rattle.std.specs.Prelude.{◌≡◌, ◌≤◌};
ghost use Rattle.rtk_obs.specs.LockTime.{least_lock_of_legacy, least_lock_of_msm, least_lock_of_extended};

// The least times of continuous lock, in ms, at the indicators of a 1004 from 0 on.
static LEAST_LOCKS: [u32; 128] = [
    0, 1_000, 2_000, 3_000, 4_000, 5_000, 6_000, 7_000, 8_000, 9_000, 10_000, 11_000, 12_000,
    13_000, 14_000, 15_000, 16_000, 17_000, 18_000, 19_000, 20_000, 21_000, 22_000, 23_000, 24_000,
    26_000, 28_000, 30_000, 32_000, 34_000, 36_000, 38_000, 40_000, 42_000, 44_000, 46_000, 48_000,
    50_000, 52_000, 54_000, 56_000, 58_000, 60_000, 62_000, 64_000, 66_000, 68_000, 70_000, 72_000,
    76_000, 80_000, 84_000, 88_000, 92_000, 96_000, 100_000, 104_000, 108_000, 112_000, 116_000,
    120_000, 124_000, 128_000, 132_000, 136_000, 140_000, 144_000, 148_000, 152_000, 156_000,
    160_000, 164_000, 168_000, 176_000, 184_000, 192_000, 200_000, 208_000, 216_000, 224_000,
    232_000, 240_000, 248_000, 256_000, 264_000, 272_000, 280_000, 288_000, 296_000, 304_000,
    312_000, 320_000, 328_000, 336_000, 344_000, 352_000, 360_000, 376_000, 392_000, 408_000,
    424_000, 440_000, 456_000, 472_000, 488_000, 504_000, 520_000, 536_000, 552_000, 568_000,
    584_000, 600_000, 616_000, 632_000, 648_000, 664_000, 680_000, 696_000, 712_000, 728_000,
    744_000, 776_000, 808_000, 840_000, 872_000, 904_000, 936_000, 937_000,
];

// The least times of continuous lock, in ms, at the indicators of DF402 from 0 on.
static LEAST_LOCKS_MSM: [u32; 16] = [
    0, 32, 64, 128, 256, 512, 1_024, 2_048, 4_096, 8_192, 16_384, 32_768, 65_536, 131_072, 262_144,
    524_288,
];

/// Returns the least time of continuous lock, in ms, at an indicator of a 1004 (DF013, DF019).
pub fn least_lock_legacy(indicator: u8) -> u32
    requires { indicator ≤ 127 }
    ensures { result ≡ least_lock_of_legacy indicator }
{
    LEAST_LOCKS[usize::from(indicator)]
}

/// Returns the least time of continuous lock, in ms, at an indicator of an MSM4 or an MSM5 (DF402).
pub fn least_lock_msm(indicator: u8) -> u32
    requires { indicator ≤ 15 }
    ensures { result ≡ least_lock_of_msm indicator }
{
    LEAST_LOCKS_MSM[usize::from(indicator)]
}

/// Returns the least time of continuous lock, in ms, at an indicator with extended range and
/// resolution, which an MSM6 and an MSM7 have (DF407). From 705 on the indicator is reserved, and the
/// answer is 0.
pub fn least_lock_extended(indicator: u16) -> u32
    ensures { result ≡ least_lock_of_extended indicator }
{
    match indicator {
        0..=63 => u32::from(indicator),
        64..=704 => {
            let doublings = indicator / 32 - 1;
            u32::from(indicator - 32 * doublings) << doublings
        }
        _ => 0,
    }
}
