// The two figures of rule 16.3, and each condition for 12, rule 16.4.
#![tactic(auto)]

use std::io;

// Prints the blocks of the worst header list, or the number of the refusal.
fn example(out: &impl Print, header_len: usize, count: usize, least: usize) -> io::Result<()> {
    let given = worst_header::header_list(header_len, count, least);
    print!(out; "h = {header_len}, k = {count}, least {least}")?;
    match given.answer {
        Ok(_) => println!(out; ", blocks: {}", given.blocks),
        Err(refusal) => println!(out; ", refused with {}", u64::from(refusal)),
    }
}

fn main(rt: HostRuntime) -> io::Result<()> {
    for (header_len, count, least) in [
        (17, 126, 0),
        (142, 126, 1),
        (17, 0, 0),
        (17, 127, 0),
        (17, 2, 2),
        (1048577, 126, 0),
        (125, 126, 1),
    ] {
        example(&rt, header_len, count, least)?;
    }
    Ok(())
}
