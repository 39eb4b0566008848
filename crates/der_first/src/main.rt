//! Reads the number at the front of standard input.
#![tactic(auto)]

use picky_asn1_der::from_reader;
use picky_asn1_der::misc::Watched;
use std::io;

fn main(rt: HostRuntime) -> io::Result<()> {
    let mut input = Watched::new(rt.reader());
    match from_reader::<u32, _>(rt.alloc(), &mut input) {
        Ok(number) => println!(rt; "{number}"),
        Err(error) => println!(rt; "refused: {error}"),
    }
}
