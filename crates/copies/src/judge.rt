// The checks of Copy: a drive's row for the source, then for the destination, then whether they share a sector.
ghost use Rattle.std.specs.Prelude.{◌≡◌, ◌≤◌, [], ◌∷◌};
ghost use Rattle.copying.specs.Listwise.{filled_by};
ghost use Rattle.model.specs.Checks.{on, judged, hits_of, judge_over, filling_of, shares, judge_copy};
ghost use Rattle.model.specs.Verdicts.{as_judgement};
ghost use Rattle.model.specs.Table.{row_for};
ghost use Rattle.model.specs.Premises.{WellFormed};
ghost use Rattle.checks.specs.Legal.{Legal, AtLeast128};

use checks::block::count_of;
use checks::order::{control_wrong, order, past_end};
use codes::Code;
use geometry::params::Params;
use model::block::{Block, CopyBlock};
use model::verdict::{Hits, NamedStop, Stop, View};

// How many sectors of dd bytes n sectors of ds bytes fill, the last perhaps in part.
fn filled_by(n: usize, ds: usize, dd: usize) -> usize
    requires { (n ≤ 256) × (ds ≤ 512) × (128 ≤ dd) × (dd ≤ 512) }
    ensures { (result ≡ filled_by n ds dd) × (result ≤ 1024) }
{
    (n * ds + (dd - 1)) / dd
}

// The sectors that n source sectors fill: none where a drive has no parameters, which is 0Ah.
fn filling_of(n: usize, from: Option<Params>, to: Option<Params>) -> usize
    requires { (n ≤ 256) × Legal from × Legal to × AtLeast128 to }
    ensures { (result ≡ filling_of n from to) × (result ≤ 1024) }
{
    let Some(p) = from else { return 0 };
    let Some(q) = to else { return 0 };
    filled_by(n, p.size, q.size)
}

// Whether n addresses of the source and m of the destination, on one drive, have one in common.
fn shares(k: CopyBlock, n: usize, m: usize) -> bool
    requires { WellFormed k.from × WellFormed k.to × (n ≤ 256) × (m ≤ 1024) }
    ensures { result ≡ shares k n m }
{
    let from = k.from;
    let to = k.to;
    let a = from.address;
    let b = to.address;
    (from.drive == to.drive) & ((b.further(m) > a) & (a.further(n) > b))
}

// 22h where they share one.
fn share_test(k: CopyBlock, n: usize, m: usize) -> Result<(), NamedStop>
    requires { WellFormed k.from × WellFormed k.to × (n ≤ 256) × (m ≤ 1024) }
    ensures { as_judgement k.from.drive result
        ≡ record { named = k.from.drive; verdict = judged (on (shares k n m) 0x22 k.from.address ∷ []) } }
{
    if shares(k, n, m) {
        let from = k.from;
        return Err(NamedStop {
            named: from.drive,
            stop: Stop::Fail(Code::NotValid, from.address),
        });
    }
    Ok(())
}

// The checks of Copy's row that hit on one drive: it has no interleave, takes no data and hands none over. They are asked for here, and
// not by the row, since a command of one drive is quicker where nothing else calls what judges it.
fn copy_hits(b: Block, reach: usize, view: View) -> Hits
    requires { Legal view.setting × WellFormed b × (b.opcode ≡ 0x20) × (reach ≤ 1024) }
    ensures { result ≡ hits_of (row_for b.opcode) b reach view 0 0 }
{
    let setting = view.setting;
    let valid = setting.is_some();
    Hits {
        unknown: false,
        wrong: b.top | control_wrong(false, false, b.control),
        absent: !view.present,
        unset: !valid,
        interleave: false,
        past: past_end(b.address, reach, setting),
        pending: view.pending & valid,
        short: false,
        small: false,
    }
}

// One drive's row of checks.
fn judge_row(b: Block, reach: usize, view: View) -> Result<(), NamedStop>
    requires { Legal view.setting × WellFormed b × (b.opcode ≡ 0x20) × (reach ≤ 1024) }
    ensures { as_judgement b.drive result ≡ record { named = b.drive; verdict = judge_over b reach view 0 0 } }
{
    let named = b.drive;
    order(b.address, copy_hits(b, reach, view)).map_err(|stop| NamedStop { named, stop })
}

// The source is judged first, then the destination, then both.
pub fn judge_copy(k: CopyBlock, from: View, to: View) -> Result<(), NamedStop>
    requires { WellFormed k.from × WellFormed k.to × Legal from.setting × Legal to.setting × AtLeast128 to.setting
        × (k.from.opcode ≡ 0x20) × (k.to.opcode ≡ 0x20) }
    ensures { as_judgement k.from.drive result ≡ judge_copy k from to }
{
    let source = k.from;
    let target = k.to;
    let n = count_of(source);
    let m = filling_of(n, from.setting, to.setting);
    judge_row(source, n, from)?;
    judge_row(target, m, to)?;
    share_test(k, n, m)
}
