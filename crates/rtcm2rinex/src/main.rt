//! The program `rtcm2rinex`; what it does stands in `rtk_cli`.
#![tactic(auto)]

use std::process::ExitCode;

fn main(rt: HostRuntime) -> ExitCode {
    ExitCode::from(rtk_cli::run_program(&rt, rt.stderr()))
}
