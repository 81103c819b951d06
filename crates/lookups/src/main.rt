//! Members looked up in every set.
//!
//! Every set of sixteen members is looked up at every position and one past them: a checksum of the members found, a line for each upper half. docs/RULES.md, "Leader and anchor".
#![tactic(auto)]

ghost use Rattle.std.specs.Prelude.{◌≡◌, ◌<◌, [], ◌∷◌, ◌++◌, OnOk, decimal};
ghost use Rattle.std.specs.Io.KnownBytes.{Appends};

use committee::leader;
use std::io;
use std::io::Write;

// The checksum with one number more. Its modulus is a prime: by a power of two the sets of a line would cancel out.
fn join(sum: u32, number: u32) -> u32 {
    ((sum as u64 * 31 + number as u64) % 2147483647) as u32
}

// With the members of a set, positions rising.
fn join_set(set: u32, sum: u32) -> u32 {
    let mut all = sum;
    for k in 0..17u32 {
        let m = leader::member_at(set, k);
        all = join(all, m.0);
    }
    all
}

// Of all sets with this upper half, lower halves rising.
fn half_sum(upper: u32) -> u32
    requires { upper < 256 }
{
    let mut all = 0;
    for lower in 0..256u32 {
        all = join_set(upper * 256 + lower, all);
    }
    all
}

// A number on a line of its own.
fn print_line<W: Write>(output: &mut W, number: u32) -> io::Result<()>
    ensures { OnOk result (Appends (W.contents output.old) (W.contents output.new)
        (decimal number ++ 10 ∷ [])) }
{
    writeln!(output, "{number}")
}

fn main(rt: HostRuntime) -> io::Result<()> {
    let mut output = rt.stdout();
    for upper in 0..256u32 {
        print_line(&mut output, half_sum(upper))?;
    }
    Ok(())
}
