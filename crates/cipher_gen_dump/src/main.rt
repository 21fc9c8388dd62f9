//! Prints trial ciphers: `cipher_gen_dump NUMBER..`. Of each number it prints a line that says how many bytes its two
//! files have, a line with the class file in hexadecimal digits, and the specification.
//! `scripts/check-trial-ciphers` compares that with files that are made another way.
#![tactic(auto)]

use cipher_gen::make;
use memory::Memory;
use std::alloc::Global;
use std::io::Write;
use std::{env, io};

fn main(rt: HostRuntime) -> io::Result<()> {
    for word in env::args(&rt)?.skip(1) {
        match word.as_str().parse() {
            Ok(number) => match listing(rt.alloc(), number) {
                Ok(text) => rt.stdout().write_all(text.as_slice())?,
                Err(Memory) => println!(rt; "trial {number}: no memory")?,
            },
            Err(_) => println!(rt; "no number of 64 bits: {word}")?,
        }
    }
    Ok(())
}

/// The two files of a number, the class in hexadecimal digits.
fn listing(alloc: Global, number: u64) -> Result<Vec<u8>, Memory> {
    let made = make(alloc, number)?;
    let (class_length, spec_length) = (made.class.len(), made.spec.len());
    let digits = hex::encode(alloc, made.class)?;
    let head = format!(in alloc;
        "trial {number}: class {class_length} bytes, spec {spec_length} bytes\n{digits}\n"
    )?;
    let mut text = head.into_bytes();
    text.extend_from_slice(made.spec.as_slice())?;
    Ok(text)
}
