// Reads a stream of the published code from standard input, at most 8,192 bytes, and prints the
// number of its words and their ranks, or the refusal.
#![tactic(auto)]

use std::io;

fn main(rt: HostRuntime) -> io::Result<()> {
    let mut stream = [0u8; 8192];
    let mut text = [0u32; 8192];
    let n = reading::read_full(&mut rt.reader(), &mut stream)?;
    let answer = dense::read_stream(&stream[..n], &mut text);
    printing::answer(&rt, answer)?;
    println!(rt; "")?;
    if answer.refusal == 0 {
        show(&rt, &text, answer.value)?;
    }
    Ok(())
}

// Prints the first ranks of a text.
fn show(rt: &impl Print, text: &[u32], count: usize) -> io::Result<()> {
    if let Some(ranks) = text.get(..count) {
        print!(rt; "ranks")?;
        printing::ranks(rt, ranks)?;
        println!(rt; "")?;
    }
    Ok(())
}
