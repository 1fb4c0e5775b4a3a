// Reads a pool sheet from standard input and prints the plan of its pool, or the refusal. The longest sheet has 7,425 bytes: one more shows that bytes
// are left over. Where a read fails nothing is planned; that, and output that is lost, is said on standard error.
#![tactic(auto)]

ghost use Rattle.std.specs.Prelude.{◌≤◌, length, IfOk};

use std::io;
use std::io::{Read, Write};

// Reads until the table is full or the input ends, and gives how many bytes it read.
fn read_sheet<R: Read>(from: &mut R, sheet: &mut [u8]) -> io::Result<usize>
    ensures { IfOk result (λ size. size ≤ length sheet.new) }
{
    let mut size = 0;
    while size < sheet.len() {
        let more = from.read(&mut sheet[size..])?;
        if more == 0 {
            break;
        }
        size += more;
    }
    Ok(size)
}

fn main(rt: HostRuntime) {
    let mut sheet = [0u8; 7426];
    let Ok(size) = read_sheet(&mut rt.stdin(), &mut sheet) else {
        let _ = rt.eprintln("plan: standard input could not be read; nothing was planned");
        return;
    };
    let mut text = [0u8; 1458];
    let length = answering::answer(&sheet[..size], &mut text);
    if rt.stdout().write_all(&text[..length]).is_err() {
        let _ = rt.eprintln("plan: standard output could not be written; the text is not whole");
    }
}
