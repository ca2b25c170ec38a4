// The three ways in which a command ends.
ghost use Rattle.std.specs.Prelude.{◌≡◌, ◌<◌};
ghost use Rattle.codes.specs.Numbers.{number_of, refusal_number};
ghost use Rattle.model.specs.Record.{sensed, bare_answer, refused, failed, good};
ghost use Rattle.model.specs.Premises.{address_limit};

use crate::sense::{good_sense, sense_of};
use codes::{Code, Refusal};
use geometry::params::Lba;
use model::record::{Answer, Drive, Ending};

fn with_sense(entry: Drive, sense: [u8; 4]) -> Drive
    ensures { result ≡ sensed sense entry }
{
    Drive { sense, ..entry }
}

// The answer with numbers 1, 2 and 3, and that of Reset. Of any number, as was promised before there was `Refusal`.
pub fn bare_answer(number: u8) -> Answer
    ensures { result ≡ bare_answer number }
{
    Answer {
        number,
        status: 0,
        message: 0,
        sectors: 0,
        bytes: 0,
    }
}

// A refusal by its number: any, as was promised before there was `Refusal`.
pub fn refused_by_number(entry: Drive, number: u8) -> Ending
    ensures { result ≡ refused number entry }
{
    Ending {
        entry,
        answer: bare_answer(number),
    }
}

pub fn refused(entry: Drive, refusal: Refusal) -> Ending
    ensures { result ≡ refused (refusal_number refusal) entry }
{
    refused_by_number(entry, refusal.number())
}

// A failure by its code's number: any below 80h, as was promised before there was `Code`. `named` is the drive that the sense bytes name.
pub fn failed_by_number(
    entry: Drive,
    drive: u8,
    named: u8,
    code: u8,
    at: Lba,
    sectors: u16,
    bytes: u32,
) -> Ending
    requires { (drive < 4) × (named < 4) × (code < 0x80) × (at.0 < address_limit) }
    ensures { result ≡ failed drive named code at sectors bytes entry }
{
    Ending {
        entry: with_sense(entry, sense_of(code, named, at)),
        answer: Answer {
            number: 0,
            status: 2 + 32 * drive,
            message: 0,
            sectors,
            bytes,
        },
    }
}

pub fn failed(
    entry: Drive,
    drive: u8,
    named: u8,
    code: Code,
    at: Lba,
    sectors: u16,
    bytes: u32,
) -> Ending
    requires { (drive < 4) × (named < 4) × (at.0 < address_limit) }
    ensures { result ≡ failed drive named (number_of code) at sectors bytes entry }
{
    failed_by_number(entry, drive, named, code.number(), at, sectors, bytes)
}

pub fn good(entry: Drive, drive: u8, sectors: u16, bytes: u32) -> Ending
    requires { drive < 4 }
    ensures { result ≡ good drive sectors bytes entry }
{
    Ending {
        entry: with_sense(entry, good_sense(drive)),
        answer: Answer {
            number: 0,
            status: 32 * drive,
            message: 0,
            sectors,
            bytes,
        },
    }
}
