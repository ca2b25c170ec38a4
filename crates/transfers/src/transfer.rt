// What Read and Write share: how a transfer ends.
ghost use Rattle.std.specs.Prelude.{◌≡◌, ◌+◌, ◌≤◌, ◌<◌};
ghost use Rattle.codes.specs.Numbers.{code_number};
ghost use Rattle.model.specs.Commands.{transfer_ending};
ghost use Rattle.model.specs.Premises.{address_limit};

use codes::Code;
use endings::ending::{failed_by_number, good};
use model::block::Block;
use model::record::{Drive, Ending};
use sectors::transfer::Done;

// A fault's number, 0 for none.
fn number_of(fault: Option<Code>) -> u8
    ensures { (result ≡ code_number fault) × (result < 0x80) }
{
    match fault {
        None => 0,
        Some(code) => code.number(),
    }
}

// A transfer's end by the number of its code, 0 for none: any below 80h, as was promised before there was `Code`.
pub fn finish_by_number(entry: Drive, b: Block, sectors: usize, code: u8, bytes: u32) -> Ending
    requires { (b.drive < 4) × (sectors ≤ 256) × (code < 0x80) × (b.address.0 + 256 < address_limit) }
    ensures { result ≡ transfer_ending b sectors code bytes entry }
{
    let drive = b.drive;
    let first = b.address;
    if code == 0 {
        return good(entry, drive, sectors as u16, bytes);
    }
    failed_by_number(
        entry,
        drive,
        drive,
        code,
        first.further(sectors),
        sectors as u16,
        bytes,
    )
}

// A transfer's end: good, or the failing sector's code and address.
pub fn finish(entry: Drive, b: Block, done: Done, bytes: u32) -> Ending
    requires { (b.drive < 4) × (done.sectors ≤ 256) × (b.address.0 + 256 < address_limit) }
    ensures { result ≡ transfer_ending b done.sectors (code_number done.fault) bytes entry }
{
    finish_by_number(entry, b, done.sectors, number_of(done.fault), bytes)
}
