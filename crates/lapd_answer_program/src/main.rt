//! The program `lapd` with its default command alone: `answer` without options, for a script from a
//! file or a pipe.
//!
//! `lapd` itself reads its words by `clap`, and has commands over sockets. So it takes several
//! times as long to build from source. While it is not built, `./lapd` runs this program for the
//! first answer. Both execute the script and report faults by the same functions.
#![tactic(auto)]

use lapd_cli_answer::{Params, Side, answer};
use lapd_cli_console::{FaultReport, OUTPUT_NAME, RecentLines, Script, Watched};
use lapd_cli_script::ScriptFault;
use lapd_frame::{Sapi, Tei};
use std::io::BufWriter;
use std::process::ExitCode;

fn main(rt: HostRuntime) -> ExitCode {
    let mut recent = RecentLines::new(rt.stdin());
    let Ok(mut out) = BufWriter::new(rt.alloc(), Watched::new(rt.stdout())) else {
        let _ = eprintln!(rt; "{}", ScriptFault::Memory);
        return ExitCode::from(ScriptFault::Memory.status());
    };
    let params = Params::basic(Sapi::Call);
    let ended = answer(
        rt.alloc(),
        &mut recent,
        &mut out,
        Side::Network,
        Sapi::Call,
        Tei::new(64).unwrap(),
        params,
    );
    // Text that a failed writer did not accept is dropped.
    let (watched, _left) = out.into_parts();
    let Err(fault) = ended else {
        return ExitCode::SUCCESS;
    };
    let report = FaultReport {
        script: Script::Answer,
        line: match fault {
            ScriptFault::BadLine(number) => recent.line(number).unwrap_or(&[]),
            _ => &[],
        },
        input: recent.fault(),
        output: watched.fault(),
        output_name: OUTPUT_NAME,
    };
    ExitCode::from(report.end(&rt, fault))
}
