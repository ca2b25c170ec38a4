// The order of checks.
ghost use Rattle.std.specs.Prelude.{◌≡◌, ◌≤◌, ◌<◌};
ghost use Rattle.geometry.specs.Params.{Within};
ghost use Rattle.model.specs.Table.{row_for};
ghost use Rattle.model.specs.Checks.{judged, is_unknown, control_wrong, block_wrong, with_params, interleave_wrong, past_end, not_spared, size_in, bytes_of, reach_of, hits_of, in_order, judge};
ghost use Rattle.model.specs.Premises.{address_limit, WellFormed};
ghost use Rattle.model.specs.Verdicts.{as_verdict};
ghost use Rattle.table.specs.Rows.{Says};
ghost use Rattle.checks.specs.Legal.{Legal};

use crate::block::count_of;
use codes::{Code, Refusal};
use geometry::medium::Medium;
use geometry::params::{Lba, Params, Track};
use model::block::Block;
use model::table::{Command, Data};
use model::verdict::{Hits, Stop, View};
use table::rows::Row;

fn is_unknown(command: Command) -> bool
    ensures { result ≡ is_unknown command }
{
    matches!(command, Command::Unknown)
}

// A control bit that is not defined, by whether bits 5 and 4 are; both at once never are.
pub fn control_wrong(fill: bool, keep: bool, control: u8) -> bool
    ensures { result ≡ control_wrong «fill» «keep» control }
{
    let low = control % 128;
    if low == 0 {
        return false;
    }
    if low == 32 {
        return !fill;
    }
    if low == 16 {
        return !keep;
    }
    true
}

// 22h by byte 1, by a command that the drive lacks or by a control bit.
fn block_wrong(row: &Row, b: Block, view: View) -> bool
    requires { Says row.now (row_for b.opcode) }
    ensures { result ≡ block_wrong (row_for b.opcode) b view }
{
    let lacked = row.checks.hard_only & (view.medium == Medium::Floppy);
    let wrong = control_wrong(row.checks.fill_bit, row.checks.keep_bit, b.control);
    b.top | (lacked | (row.checks.control & wrong))
}

fn out_of_range(f: u8, p: Params) -> bool
    requires { Within p }
    ensures { result ≡ interleave_wrong f p }
{
    if f < 1 {
        return true;
    }
    p.sectors - 1 < f as usize
}

fn interleave_wrong(f: u8, setting: Option<Params>) -> bool
    requires { Legal setting }
    ensures { result ≡ with_params setting (interleave_wrong f) }
{
    setting.is_some_and(|p| out_of_range(f, p))
}

// Up to 1,024 sectors: a Read or Write has 256 at the most, a Copy (request E5) fills as many as that. Where it fills none, one of its
// drives has no parameters.
pub fn past_end(a: Lba, reach: usize, setting: Option<Params>) -> bool
    requires { Legal setting × (a.0 < address_limit) × (reach ≤ 1024) }
    ensures { result ≡ with_params setting (past_end a reach) }
{
    setting.is_some_and(|p| {
        let end = p.last_address().further(1);
        a.further(reach) > end
    })
}

fn not_spared(whole: bool, a: Lba, setting: Option<Params>) -> bool
    requires { Legal setting }
    ensures { result ≡ with_params setting (not_spared «whole» a) }
{
    setting.is_some_and(|p| !(whole & (p.track_of(a) == Track::first())))
}

fn size_in(setting: Option<Params>) -> usize
    ensures { result ≡ size_in setting }
{
    setting.map_or(0, |p| p.size)
}

fn bytes_of(kind: Data, b: Block, setting: Option<Params>) -> usize
    requires { Legal setting }
    ensures { result ≡ bytes_of kind b setting }
{
    match kind {
        Data::Nothing => 0,
        Data::Sense => 4,
        Data::Alternate => 3,
        Data::Configuration => 10,
        Data::Buffer => 512,
        Data::Sectors => count_of(b) * size_in(setting),
    }
}

fn reach_of(counted: bool, b: Block) -> usize
    ensures { (result ≡ reach_of «counted» b) × (1 ≤ result) × (result ≤ 256) }
{
    if counted {
        return count_of(b);
    }
    1
}

// The checks that hit.
fn hits_of(row: &Row, b: Block, reach: usize, view: View, given: usize, area: usize) -> Hits
    requires { Says row.now (row_for b.opcode) × Legal view.setting × WellFormed b × (reach ≤ 256) }
    ensures { result ≡ hits_of (row_for b.opcode) b reach view given area }
{
    let command = row.command;
    let takes = row.takes;
    let gives = row.gives;
    let setting = view.setting;
    let at = b.address;
    let held = not_spared(row.checks.spared_whole, at, setting);
    Hits {
        unknown: is_unknown(command),
        wrong: block_wrong(row, b, view),
        absent: row.checks.present & !view.present,
        unset: row.checks.parameters & setting.is_none(),
        interleave: row.checks.interleave & interleave_wrong(b.extra, setting),
        past: row.checks.address & past_end(at, reach, setting),
        pending: view.pending & (row.checks.settled & held),
        short: given < bytes_of(takes, b, setting),
        small: area < bytes_of(gives, b, setting),
    }
}

// The first check that hits, in document 01's order.
pub fn order(at: Lba, hits: Hits) -> Result<(), Stop>
    ensures { as_verdict result ≡ judged (in_order at hits) }
{
    if hits.unknown {
        return Err(Stop::Fail(Code::UnknownCommand, at));
    }
    if hits.wrong {
        return Err(Stop::Fail(Code::NotValid, at));
    }
    if hits.absent {
        return Err(Stop::Fail(Code::Absent, at));
    }
    if hits.unset {
        return Err(Stop::Fail(Code::NoParameters, at));
    }
    if hits.interleave {
        return Err(Stop::Fail(Code::NotValid, at));
    }
    if hits.past {
        return Err(Stop::Fail(Code::PastEnd, at));
    }
    if hits.pending {
        return Err(Stop::Fail(Code::Pending, at));
    }
    if hits.short {
        return Err(Stop::Refuse(Refusal::Given));
    }
    if hits.small {
        return Err(Stop::Refuse(Refusal::Area));
    }
    Ok(())
}

// A command of a block of six bytes, up to its own checks.
// In line first, so that LLVM stops at the first hit where it can, and does not make all tests at once.
#[inline(always)]
pub fn judge(row: &Row, b: Block, view: View, given: usize, area: usize) -> Result<(), Stop>
    requires { Says row.now (row_for b.opcode) × Legal view.setting × WellFormed b }
    ensures { as_verdict result ≡ judge b view given area }
{
    let reach = reach_of(row.checks.counted, b);
    order(b.address, hits_of(row, b, reach, view, given, area))
}
