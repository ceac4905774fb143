//! Scripts that end without a line feed or at a bad line. The rows test the output of valid lines.

use bench_lines::RunFault;
use card_bench::run;
use card_turns::Bench;
use simulated_boards::CutBoard;
use std::alloc::Global;
use std::io::BufRead;

/// Returns the exit status of a run.
pub fn status_of(ended: Result<(), RunFault>) -> u8 {
    match ended {
        Ok(()) => 0,
        Err(fault) => fault.status(),
    }
}

/// Returns the output and the status of a script's run.
pub fn outcome_of(alloc: Global, reader: &mut impl BufRead) -> (Vec<u8>, u8) {
    let mut printed = Vec::new(alloc);
    let status = status_of(run::<Bench<CutBoard>, _, _>(alloc, reader, &mut printed));
    (printed, status)
}

/// Returns true if a script has this output and status.
pub fn ends_so(alloc: Global, reader: &mut impl BufRead, printed: &str, wanted: u8) -> bool {
    let (came, status) = outcome_of(alloc, reader);
    status == wanted && came.as_slice() == printed.as_bytes()
}

const ATR: &str = "atr 3B808131FE458B\n";

// Scripts that end without a line feed, or at a bad line; the output before it stays.
const ENDS: &[(&str, &str, u8)] = &[
    ("", "", 0),
    ("on", ATR, 0),
    ("\n# a comment\non\r\n#\noff\n", ATR, 0),
    ("apdu 0\n", "", 2),
    ("on\napdu 0G\non\n", ATR, 2),
    ("on\napdu 00A4000C022FE\n", ATR, 2),
    ("on\n on\n", ATR, 2),
    ("on\non \n", ATR, 2),
    ("on\nON\n", ATR, 2),
    ("on\napdu\n", ATR, 2),
    ("on\napdu \n", ATR, 2),
    ("on\napdu  00A4\n", ATR, 2),
    ("on\nfree 1\n", ATR, 2),
    ("on\nFree\n", ATR, 2),
    ("free ", "", 2),
    ("free 1", "", 2),
    // A number is 1 to 6 decimal digits, without a sign, and at least 1.
    ("on\nlose 000001\ngarble 999999\noff\n", ATR, 0),
    ("on\nlose 0\n", ATR, 2),
    ("on\nlose 000000\n", ATR, 2),
    ("on\nlose 1000000\n", ATR, 2),
    ("on\nlose 0000001\n", ATR, 2),
    ("on\ngarble\n", ATR, 2),
    ("on\ngarble \n", ATR, 2),
    ("on\nlose +1\n", ATR, 2),
    ("on\ngarble -1\n", ATR, 2),
    ("on\nlose  1\n", ATR, 2),
    ("on\nlose 1 \n", ATR, 2),
    ("on\nlose 1A\n", ATR, 2),
    ("on\ngarble 1:\n", ATR, 2),
    // A cut has a number and a mask of exactly four hexadecimal digits.
    ("cut 000001 ABcd\ncut 999999 0000\n", "", 0),
    ("cut", "", 2),
    ("cut ", "", 2),
    ("cut 1", "", 2),
    ("cut 1 ", "", 2),
    ("cut 0 0001", "", 2),
    ("cut 1000000 0001", "", 2),
    ("cut +1 0001", "", 2),
    ("cut  1 0001", "", 2),
    ("cut 1  0001", "", 2),
    ("cut 1 001", "", 2),
    ("cut 1 00001", "", 2),
    ("cut 1 000G", "", 2),
    ("cut 10001", "", 2),
    ("Cut 1 0001", "", 2),
    // One carriage return before a line feed is dropped, and none elsewhere.
    ("on\r", "", 2),
    ("on\r\r\n", "", 2),
    ("on\r\noff\r\n", ATR, 0),
];

#[test]
fn scripts_end(rt: HostRuntime) {
    for &(script, printed, status) in ENDS {
        assert!(rt;
            ends_so(rt.alloc(), &mut script.as_bytes(), printed, status),
            "{script}"
        );
    }
}
