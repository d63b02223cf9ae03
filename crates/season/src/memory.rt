// The bytes of a strip.
use std::io;

// Prints the bytes that are in use: the version, and then each record on a line of its own.
pub fn show(rt: &HostRuntime, memory: &[u8], used: usize) -> io::Result<()> {
    println!(rt; "strip: {used} bytes used")?;
    let Some((version, records)) = memory[..used.min(memory.len())].split_first() else {
        return Ok(());
    };
    show_line(rt, &[*version])?;
    for record in records.chunks(48) {
        show_line(rt, record)?;
    }
    Ok(())
}

fn show_line(rt: &HostRuntime, bytes: &[u8]) -> io::Result<()> {
    for byte in bytes {
        print!(rt; "{byte:02x}")?;
    }
    println!(rt; "")
}
