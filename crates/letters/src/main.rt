// Prints the letter table: sixteen lines of sixteen entries, each as a blank and two hexadecimal
// digits.
#![tactic(auto)]

use std::io;

fn main(rt: HostRuntime) -> io::Result<()> {
    let table = lexicon::letter_table();
    for line in table.chunks(16) {
        printing::bytes(&rt, line)?;
        println!(rt; "")?;
    }
    Ok(())
}
