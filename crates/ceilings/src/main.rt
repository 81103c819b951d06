//! The largest ceiling opens, and one above is refused.
//!
//! 1,024 opens, and 1,025 is out of range (2). docs/RULES.md, "The sheet".
#![tactic(auto)]

use std::io;
use std::io::Write;
use terms::Member;
use terms::sheet::{Rights, Setting, Sheet};

// The words of a table of ceiling 1,024.
const TABLE: usize = 278800;

// Opens with a ceiling and writes the answer out.
fn try_ceiling<W: Write>(output: &mut W, table: &mut [u32], ceiling: u32) -> io::Result<()> {
    let blank = Sheet::blank();
    let weights = blank.weights;
    let written = Sheet {
        lookback: Setting::Blank,
        ceiling: Setting::Written(ceiling),
        allowance: Setting::Blank,
        weights,
        margin: Setting::Blank,
        rights: Rights(0),
    };
    let answer = open::open(&mut open::closed(), table, Member(0), written);
    let mut out = [0u8; 20];
    let n = replies::answer::put_answer(answer, &mut out);
    output.write_all(&out[..n])
}

fn main(rt: HostRuntime) -> io::Result<()> {
    let mut table = vec![in rt.alloc(); 0u32; TABLE]?;
    let mut output = rt.stdout();
    try_ceiling(&mut output, &mut table, 1024)?;
    try_ceiling(&mut output, &mut table, 1025)
}
