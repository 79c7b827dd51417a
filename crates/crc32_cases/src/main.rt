// Prints checksums, each a line of a name and eight hexadecimal digits.
#![tactic(auto)]

use std::io;

fn show(rt: &impl Print, name: &str, bytes: &[u8]) -> io::Result<()> {
    let sum = crc32::checksum(bytes);
    println!(rt; "{name} {sum:08x}")
}

// The value that the contract gives for the digits is the value of the run.
fn digits() {
    prove!(crc32::checksum(b"123456789") == 0xCBF4_3926);
}

fn main(rt: HostRuntime) -> io::Result<()> {
    digits();
    let mut rising = [0u8; 256];
    for byte in 0..=u8::MAX {
        rising[usize::from(byte)] = byte;
    }
    show(&rt, "empty", b"")?;
    show(&rt, "a", b"a")?;
    show(&rt, "123456789", b"123456789")?;
    show(&rt, "0..255", &rising)?;
    show(&rt, "1000 zeros", &[0u8; 1000])
}
